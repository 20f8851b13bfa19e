//! Numbers as elements of lists in chunks: their texts are their four bytes.
ghost use Rattle.std.specs.Prelude.{◌≡◌, ℕ, take, drop};
ghost use Rattle.chunked_list.specs.Leading.{leading};
ghost use Rattle.pair_tests.specs.ByteTexts.{four_bytes};

use chunked_list::hinted_chunks::TextOrder;
use chunked_list::{Bound, Keyed, Order, Test};
use std::cmp::Ordering;
use std::marker::Model;

/// A number.
#[derive(Drop)]
pub(crate) struct Number {
    pub(crate) value: u32,
}

impl Model for Number {
    ghost use Rattle.std.specs.Prelude.{ℕ};

    ghost Value = { ℕ };

    ghost view = { λ number. number.value };
}

impl Keyed for Number {
    ghost use Rattle.pair_tests.specs.ByteTexts.{four_bytes};

    ghost key = { four_bytes };

    fn shared(&self, other: &Number) -> usize {
        shared_bytes(self.value, other.value)
    }

    fn hint(&self, place: usize) -> u64 {
        bytes_from(self.value, place)
    }
}

// How many bytes two numbers share.
fn shared_bytes(a: u32, b: u32) -> usize
    ensures { take result (four_bytes a) ≡ take result (four_bytes b) }
{
    if a == b {
        return 4;
    }
    if a / 256 == b / 256 {
        return 3;
    }
    if a / 256 / 256 == b / 256 / 256 {
        return 2;
    }
    if a / 256 / 256 / 256 == b / 256 / 256 / 256 {
        return 1;
    }
    0
}

// The bytes of a number from a place on.
fn bytes_from(value: u32, place: usize) -> u64
    ensures { result ≡ leading 8 (drop place (four_bytes value)) }
{
    let first = u64::from(value / 256 / 256 / 256);
    let second = u64::from(value / 256 / 256 % 256);
    let third = u64::from(value / 256 % 256);
    let fourth = u64::from(value % 256);
    match place {
        0 => (((first * 256 + second) * 256 + third) * 256 + fourth) * 0x1_0000_0000,
        1 => ((second * 256 + third) * 256 + fourth) * 0x100_0000_0000,
        2 => (third * 256 + fourth) * 0x1_0000_0000_0000,
        3 => fourth * 0x100_0000_0000_0000,
        _ => 0,
    }
}

/// Numbers by size.
pub(crate) struct BySize;

impl Order<Number> for BySize {
    ghost use Rattle.std.proofs.Common.{◌∙◌, sym};
    ghost use Rattle.std.specs.Ordering.{nat_cmp};
    ghost use Rattle.std.proofs.lemmas.Cmp.{nat_cmp_total};
    ghost use Rattle.std.proofs.lemmas.Map.Lookups.{exact_unsigned};
    ghost use Rattle.pair_tests.specs.ByteTexts.{bytes_compared};

    ghost order = { λ _. nat_cmp };

    ghost total = { λ _. nat_cmp_total };

    ghost exact = { λ _. exact_unsigned };

    ghost by_key = { λ _ a b r n e. sym (bytes_compared a b) ∙ e };

    fn compare(&self, a: &Number, b: &Number) -> Ordering {
        a.value.cmp(&b.value)
    }
}

impl TextOrder<Number> for BySize {
    ghost use Rattle.std.proofs.Common.{◌∙◌, sym};
    ghost use Rattle.std.specs.Ordering.{nat_cmp};
    ghost use Rattle.std.proofs.lemmas.Cmp.{nat_cmp_total};
    ghost use Rattle.pair_tests.specs.ByteTexts.{bytes_compared, four_bytes};

    ghost order = { λ _. nat_cmp };

    ghost text = { λ _. four_bytes };

    ghost total = { λ _. nat_cmp_total };

    ghost by_text = { λ _ a b r n e. sym (bytes_compared a b) ∙ e };

    fn compare(&self, a: &Number, b: &Number) -> Ordering {
        a.value.cmp(&b.value)
    }

    fn shared(&self, a: &Number, b: &Number) -> usize {
        shared_bytes(a.value, b.value)
    }

    fn hint(&self, number: &Number, place: usize) -> u64 {
        bytes_from(number.value, place)
    }
}

/// The place of a number.
#[derive(Clone, Copy)]
pub(crate) struct Under {
    pub(crate) number: u32,
}

impl Bound<Number> for Under {
    ghost use Rattle.std.proofs.Common.{◌∙◌, sym, ap};
    ghost use Rattle.std.specs.Ordering.{is_lt, nat_cmp};
    ghost use Rattle.pair_tests.specs.ByteTexts.{four_bytes, bytes_compared};

    ghost before = { λ place number. is_lt (nat_cmp number place.number) };

    ghost key = { λ place. four_bytes place.number };

    ghost below = { λ b x e. ap is_lt (sym (bytes_compared x b.number) ∙ e) };

    ghost above = { λ b x e. ap is_lt (sym (bytes_compared x b.number) ∙ e) };

    fn is_before(&self, number: &Number) -> bool {
        number.value.cmp(&self.number).is_lt()
    }

    fn shared(&self, number: &Number) -> usize {
        shared_bytes(self.number, number.value)
    }

    fn hint(&self, place: usize) -> u64 {
        bytes_from(self.number, place)
    }
}

impl Test<Number> for Under {
    ghost use Rattle.std.specs.Ordering.{is_lt, nat_cmp};

    ghost passes = { λ place number. is_lt (nat_cmp number place.number) };

    fn passes(&self, number: &Number) -> bool {
        number.value.cmp(&self.number).is_lt()
    }
}
