ghost use Rattle.std.specs.Prelude.{◌≡◌, ◌==◌, ℕ, List, map, IfNone, if◌then◌else◌, vec_capacity};
ghost use Rattle.std.specs.List.{position};
ghost use Rattle.machine.specs.Numbers.{holds, without};
ghost use Rattle.receiver.specs.declared.receipts.Receipt.{Receipt};
ghost use Rattle.conduct.specs.Lists.{unspent};

use receiver::Receipt;

/// Where the receipt of a number lies among those held.
fn place(receipts: &[Receipt], number: u32) -> Option<usize>
    ensures value { result ≡ position (λ (r : Receipt). r.number == number) receipts.now }
{
    receipts
        .iter()
        .position(|receipt| receipt.number() == number)
}

/// Takes the receipt of a number from those held, if it is among them.
pub(crate) fn take(receipts: &mut Vec<Receipt>, number: u32) -> Option<Receipt>
    ensures value { (ns : List ℕ) → receipts.old.items ≡ map unspent ns → result ≡ (if holds number ns then Some (unspent number) else None) }
    ensures after { (ns : List ℕ) → receipts.old.items ≡ map unspent ns → receipts.new.items ≡ map unspent (without number ns) }
    ensures none { IfNone result (receipts.new.items ≡ receipts.old.items) }
    ensures room { vec_capacity receipts.new ≡ vec_capacity receipts.old }
{
    let at = place(receipts, number)?;
    Some(receipts.remove(at))
}
