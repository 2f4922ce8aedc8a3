//! Worked days, computed on the definitions.
ghost use Rattle.std.specs.Prelude.{◌≡◌};
ghost use Rattle.hx_members.specs.Setups.{standard};
ghost use Rattle.hx_market.specs.Steps.{output};
ghost use Rattle.hx_market.specs.QuietChains.{strike_one};
ghost use Rattle.hx_market_tests.specs.HaltDays.{halts_and_breaks, halts_and_breaks_tells, halts_and_breaks_struck};
ghost use Rattle.hx_market_tests.specs.Days.{one_displayed_order, one_displayed_order_tells, hidden_then_displayed, hidden_then_displayed_tells, display_beats_time, display_beats_time_tells, hidden_executions_on_both_sides, hidden_executions_on_both_sides_tells, minimum_passed_over, minimum_passed_over_tells, minimum_stays, minimum_stays_tells, displayed_immediate_or_cancel, displayed_immediate_or_cancel_tells, two_levels_taken, two_levels_taken_tells, times_going_back, times_going_back_tells, limits_of_fields, limits_of_fields_tells, failed_replace, failed_replace_tells, chain_that_traded, chain_that_traded_tells, display_changes, display_changes_tells, cancels, cancels_tells, replaces_that_trade, replaces_that_trade_tells, ticks, ticks_tells, closed, hours_of_a_day, hours_of_a_day_tells};

/// The output of the day: one displayed order.
pub fn one_displayed_order()
    ensures { output standard one_displayed_order ≡ one_displayed_order_tells }
{}

/// The output of the day: a hidden order, then a displayed one.
pub fn hidden_then_displayed()
    ensures { output standard hidden_then_displayed ≡ hidden_then_displayed_tells }
{}

/// The output of the day: display beats time.
pub fn display_beats_time()
    ensures { output standard display_beats_time ≡ display_beats_time_tells }
{}

/// The output of the day: hidden executions on both sides.
pub fn hidden_executions_on_both_sides()
    ensures { output standard hidden_executions_on_both_sides
        ≡ hidden_executions_on_both_sides_tells }
{}

/// The output of the day: an order is passed over for its minimum.
pub fn minimum_passed_over()
    ensures { output standard minimum_passed_over ≡ minimum_passed_over_tells }
{}

/// The output of the day: the minimum stays.
pub fn minimum_stays()
    ensures { output standard minimum_stays ≡ minimum_stays_tells }
{}

/// The output of the day: a displayed immediate order.
pub fn displayed_immediate_or_cancel()
    ensures { output standard displayed_immediate_or_cancel ≡ displayed_immediate_or_cancel_tells }
{}

/// The output of the day: two levels are taken.
pub fn two_levels_taken()
    ensures { output standard two_levels_taken ≡ two_levels_taken_tells }
{}

/// The output of the day: times go back.
pub fn times_going_back()
    ensures { output standard times_going_back ≡ times_going_back_tells }
{}

/// The output of the day: the limits of fields.
pub fn limits_of_fields()
    ensures { output standard limits_of_fields ≡ limits_of_fields_tells }
{}

/// The output of the day: a Replace fails, and its token stays used.
pub fn failed_replace()
    ensures { output standard failed_replace ≡ failed_replace_tells }
{}

/// The output of the day: a chain of replaces that traded.
pub fn chain_that_traded()
    ensures { output standard chain_that_traded ≡ chain_that_traded_tells }
{}

/// The output of the day: replaces change the display.
pub fn display_changes()
    ensures { output standard display_changes ≡ display_changes_tells }
{}

/// The output of the day: cancels take shares off, and the order out.
pub fn cancels()
    ensures { output standard cancels ≡ cancels_tells }
{}

/// The output of the day: replaces after executions, and replaces that trade.
pub fn replaces_that_trade()
    ensures { output standard replaces_that_trade ≡ replaces_that_trade_tells }
{}

/// The output of the day: seconds run out at ticks.
pub fn ticks()
    ensures { output standard ticks ≡ ticks_tells }
{}

/// The output of the day: the hours go on.
pub fn hours_of_a_day()
    ensures { output closed hours_of_a_day ≡ hours_of_a_day_tells }
{}

/// The output of the day: a halt, its end, and executions that are broken.
pub fn halts_and_breaks()
    ensures { output standard halts_and_breaks ≡ halts_and_breaks_tells }
{}

/// What stays of the day without the messages of the second member's quiet chains: all but its sell in the halt.
pub fn halts_and_breaks_struck()
    ensures { strike_one standard 2 halts_and_breaks ≡ halts_and_breaks_struck }
{}
