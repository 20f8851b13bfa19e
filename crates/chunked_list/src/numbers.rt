//! Two numbers as a text.
ghost use Rattle.std.specs.Prelude.{◌≡◌, drop};
ghost use Rattle.chunked_list.specs.Leading.{leading};
ghost use Rattle.chunked_list.specs.NumberTexts.{numbers_text};

/// The first eight bytes of the text of two numbers from a place on, as a number.
#[tactic(auto, using(crate::proofs::NumberHints::hint_of_numbers, crate::proofs::NumberHints::no_hint))]
pub fn numbers_hint(first: u32, second: u32, place: usize) -> u64
    ensures { result ≡ leading 8 (drop place (numbers_text first second)) }
{
    if place >= 8 {
        return 0;
    }
    (u64::from(first) * 4_294_967_296 + u64::from(second)) << (8 * place)
}
