ghost use Rattle.std.specs.Prelude.{◌≡◌};
ghost use Rattle.std.specs.declared.cmp.Ordering.{Ordering};
ghost use Rattle.std.specs.declared.cmp.Ordering.TheVariants.{Equal};
ghost use Rattle.std.specs.Ordering.{is_lt};
ghost use Rattle.std.specs.Cmp.{IsTotalOrder};
ghost use Rattle.queue.specs.Orders.{OneFirst};

/// What a queue can hold: values in a total order that tells any two apart.
// The order is the entry's own, apart from `Ord`: who queues a type may want it in another order than it has for all else.
pub trait Entry: Copy {
    /// The order in which entries come out.
    ghost order: { Self → Self → Ordering };

    /// Whether this entry comes out before the other.
    fn comes_before(&self, other: &Self) -> bool
        ensures by_the_order { result ≡ is_lt (order self.now other.now) };

    /// The order is total: the law that `Ord` has for its `cmp`.
    ghost total: { IsTotalOrder order };

    /// Entries that compare equal are one.
    ghost same: { (x y : Self) → order x y ≡ Equal → x ≡ y };
}

/// What comes first in a bag is one entry, so that a queue's answers are determined.
pub fn first_is_one_stands<T: Entry>(_entry: T)
    ensures first_is_one { OneFirst T.order }
{}
