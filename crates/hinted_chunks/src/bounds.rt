//! How elements compare, and places in a list that a test divides.
ghost use Rattle.std.specs.Prelude.{◌≡◌, ℕ, List, Bool, true, false, take, drop};
ghost use Rattle.std.specs.Cmp.{IsTotalOrder};
ghost use Rattle.std.specs.Cmp.Lexicographic.{slice_cmp};
ghost use Rattle.std.specs.Ordering.{nat_cmp};
ghost use Rattle.std.specs.declared.cmp.Ordering.{Ordering as OrderingValue};
ghost use Rattle.std.specs.declared.cmp.Ordering.TheVariants.{Less, Equal, Greater};
ghost use Rattle.std.proofs.lemmas.Map.Lookups.{CmpEqualImpliesEq};
ghost use Rattle.hinted_chunks.specs.Leading.{leading};

use std::cmp::Ordering;

/// What has a text by which it is ordered first.
pub trait Keyed {
    /// The text.
    ghost key: { Self → List ℕ };

    /// A number of bytes that the texts of two share from their starts.
    fn shared(&self, other: &Self) -> usize
        ensures { take result (key self.now) ≡ take result (key other.now) };

    /// The first eight bytes of the text from a place on, as a number.
    fn hint(&self, place: usize) -> u64
        ensures { result ≡ leading 8 (drop place (key self.now)) };
}

/// A total order of elements, which may stand on data.
pub trait Order<T: Keyed> {
    /// How two elements compare.
    ghost order: { Self → T → T → OrderingValue };

    /// How two elements compare.
    fn compare(&self, a: &T, b: &T) -> Ordering
        ensures { result ≡ order self.now a.now b.now };

    /// The order is total.
    ghost total: { (o : Self) → IsTotalOrder (order o) };

    /// What compares as equal is the same.
    ghost exact: { (o : Self) → CmpEqualImpliesEq (order o) };

    /// What their texts say of two elements, the order says too.
    ghost by_key: { (o : Self) (a b : T) (r : OrderingValue) → ¬ (r ≡ Equal) → slice_cmp nat_cmp (T.key a) (T.key b) ≡ r → order o a b ≡ r };
}

/// A place in a list: behind the elements that are before it.
pub trait Bound<T: Keyed> {
    /// Whether an element is before it.
    ghost before: { Self → T → Bool };

    /// The text at which it stands.
    ghost key: { Self → List ℕ };

    /// Whether the element is before it.
    fn is_before(&self, element: &T) -> bool
        ensures { result ≡ before self.now element.now };

    /// A number of bytes that its text and an element's share from their starts.
    fn shared(&self, element: &T) -> usize
        ensures { take result (key self.now) ≡ take result (T.key element.now) };

    /// The first eight bytes of its text from a place on, as a number.
    fn hint(&self, place: usize) -> u64
        ensures { result ≡ leading 8 (drop place (key self.now)) };

    /// What has a lesser text is before it.
    ghost below: { (b : Self) (x : T) → slice_cmp nat_cmp (T.key x) (key b) ≡ Less → before b x ≡ true };

    /// What has a greater text is not.
    ghost above: { (b : Self) (x : T) → slice_cmp nat_cmp (T.key x) (key b) ≡ Greater → before b x ≡ false };
}

/// A test of elements, wherever they stand.
pub trait Test<T> {
    /// Whether an element passes.
    ghost passes: { Self → T → Bool };

    /// Whether the element passes.
    fn passes(&self, element: &T) -> bool
        ensures { result ≡ passes self.now element.now };
}

/// The place of an element by an order.
#[derive(Drop)]
pub struct Below<'a, T, O> {
    pub order: &'a O,
    pub element: &'a T,
}

impl<'a, T: Keyed, O: Order<T>> Bound<T> for Below<'a, T, O> {
    ghost use Rattle.std.proofs.Common.{ap, sym};
    ghost use Rattle.std.specs.Ordering.{is_lt, is_eq};
    ghost use Rattle.std.proofs.lemmas.Bool.{false≢true};
    ghost use Rattle.std.specs.declared.cmp.Ordering.TheVariants.{Less, Greater};

    ghost before = { λ place element. is_lt (O.order place.order.now element place.element.now) };

    ghost key = { λ place. T.key place.element.now };

    ghost below = { λ b x e. ap is_lt (O.by_key b.order.now x b.element.now Less (λ q. false≢true (sym (ap is_lt q))) e) };

    ghost above = { λ b x e. ap is_lt (O.by_key b.order.now x b.element.now Greater (λ q. false≢true (ap is_eq q)) e) };

    fn is_before(&self, element: &T) -> bool {
        self.order.compare(element, self.element).is_lt()
    }

    fn shared(&self, element: &T) -> usize {
        self.element.shared(element)
    }

    fn hint(&self, place: usize) -> u64 {
        self.element.hint(place)
    }
}
