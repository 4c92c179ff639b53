// `ambrulicciu_ledger_fresh`: a fresh ledger, in the words that a host lends.
ghost use Rattle.std.specs.Prelude.{◌≡◌};
ghost use Rattle.host_fresh.specs.Fresh.{fresh_left, fresh_of};

use host_ledger::LEDGER_WORDS;

#[unsafe(no_mangle)]
pub extern "C" fn ambrulicciu_ledger_fresh(
    ledger: &mut [u64; LEDGER_WORDS],
    copies: u16,
    secret: &[u32; 8],
) -> u8
    ensures { fresh_left result ledger.new ≡ fresh_of copies secret.now }
{
    let words = *secret;
    let next = ledger_state::fresh(copies, words);
    let hash = next.secret;
    host_ledger::store_fresh(ledger, next.copies, hash);
    0
}
