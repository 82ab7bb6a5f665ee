// Whether two lists hold the same, place by place.
#![tactic(auto)]

ghost use Rattle.std.specs.Prelude.{◌≡◌};
ghost use Rattle.finite.specs.Lists.{same_by};

// Whether they have the same length, and at each place members that are equal.
#[tactic(auto, using(crate::specs::Same::same_as_library))]
pub fn same<T: PartialEq>(a: &[T], b: &[T]) -> bool
    ensures { result ≡ same_by T.eq a.now b.now }
{
    a == b
}
