// The known table: a record for each certificate that is known. A known digest keeps its first record.
ghost use Rattle.std.specs.Prelude.{◌≡◌, ◌↔◌, true, length, IsOk, IfOk, IfErr};
ghost use Rattle.table.specs.Rows.{shaped};
ghost use Rattle.synchronizer.specs.Known.{learning};
ghost use Rattle.refusal.specs.declared.Refusal.TheVariants.{BadShape};

use genesis::RECORD;
use refusal::Refusal;

// A known table in shape.
#[derive(Clone, Copy)]
pub struct Known<'a> {
    pub table: &'a [u8],
    pub ghost shape: { shaped 68 table.now ≡ true },
}

impl<'a> Known<'a> {
    // Refused where the bytes are no such table.
    pub fn new(table: &'a [u8]) -> Result<Known<'a>, Refusal>
        ensures ok { IsOk result ↔ (shaped 68 table.now ≡ true) }
        ensures is { IfOk result (λ k. k.table.now ≡ table.now) }
        ensures err { IfErr result (λ e. e ≡ BadShape) }
    {
        if !table::rows::shape(table, RECORD) {
            return Err(Refusal::BadShape);
        }
        Ok(Known { table })
    }
}

// Whether the table knows a record's digest. Refused where it does not, and has no place for it.
pub fn known_as(known: &Known, new: &[u8]) -> Result<bool, Refusal>
    requires { length new.now ≡ 68 }
    ensures { result ≡ learning known.now.table.now new.now }
{
    if let Some(_) = table::find::find_part(known.table, RECORD, 36, genesis::digest(new)) {
        return Ok(true);
    }
    if !table::rows::room(known.table, RECORD) {
        return Err(Refusal::NoRoom);
    }
    Ok(false)
}
