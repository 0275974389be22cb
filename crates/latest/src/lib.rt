// The windows of either plan of a ticket's struct. The latest plan is the plan of the mirror, turned back (02, change 1).
// Rests on `mirror` for the mirrored ticket and on `windows` for its plan.

#![tactic(auto)]

ghost use Rattle.std.specs.Prelude.{◌≡◌, true, length};
ghost use Rattle.temporal.specs.Run.{Valid};
ghost use Rattle.ticket.specs.Writing.{content};
ghost use Rattle.windows.specs.Promises.{Workspace};
ghost use Rattle.latest.specs.Latest.{PlannedFor};

// The windows of the latest plan; false where there is no schedule. The mirror is a ticket where every rule with the start can be kept.
fn latest_windows(
    net: &mut [u32],
    t: &ticket::Ticket,
    opens: &mut [u32; 40],
    closes: &mut [u32; 40],
) -> bool
    requires valid { Valid (content t.now) }
    requires workspace { Workspace t.now net.old opens.old closes.old }
    ensures planned_for { PlannedFor true t.now opens.old closes.old opens.new closes.new result }
    ensures net_len_unchanged { length net.new ≡ length net.old }
{
    if !mirror::all_possible(*t)
        || !windows::plan_windows(net, mirror::mirror_ticket(*t), opens, closes)
    {
        return false;
    }
    mirror::mirror_windows(t.horizon, t.events, opens, closes);
    true
}

// The windows of the plan, of the latest plan where `latest` says so; false where there is no schedule. `latest` is an input, of which the contract speaks
// (`PlannedFor latest`); a plan as a closure would bring its whole contract along.
pub fn plan_windows(
    net: &mut [u32],
    t: ticket::Ticket,
    latest: bool,
    opens: &mut [u32; 40],
    closes: &mut [u32; 40],
) -> bool
    requires valid { Valid (content t) }
    requires workspace { Workspace t net.old opens.old closes.old }
    ensures planned_for { PlannedFor latest t opens.old closes.old opens.new closes.new result }
    ensures net_len_unchanged { length net.new ≡ length net.old }
{
    if latest {
        latest_windows(net, &t, opens, closes)
    } else {
        windows::plan_windows(net, t, opens, closes)
    }
}
