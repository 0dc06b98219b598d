// The times of rules within the limits, by groups, order and rows.
ghost use Rattle.std.specs.Prelude.{◌*◌, ◌≤◌, length};
ghost use Rattle.model.specs.Loop.{Live};
ghost use Rattle.model.specs.Times.{Timed};
ghost use Rattle.columns.specs.Views.{of_filled, delays_of};

use crate::group::Groups;
use columns::Filled;

// The times of the first `count` occurrences of every transition, where every loop turns.
pub fn written(rules: &Filled<'_>, count: usize, times: &mut [u64])
    requires live { Live (of_filled rules.now) }
    requires count_bound { (count ≤ 1024) × (count * rules.now.n ≤ length times.old) }
    ensures { Timed (of_filled rules.now) (delays_of rules.now) count rules.now.n times.old times.new }
{
    let groups = Groups::of(rules);
    let order = crate::order::order(&groups, rules.n);
    crate::rows::rows(&groups, &order, rules.n, count, times);
}
