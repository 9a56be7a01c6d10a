// What is true of one portfolio, each fact proved. The functions do nothing: a contract is where a fact is read.
ghost use Rattle.margin.specs.Facts.{WorstCaseIsLeastOverFillings, FillingsAreLists, NoughtIsWorthNought, WorthAtMostPriceTimesQuantity, ShockedAtMostItself, FirstRatioAtMostValue, InitialMarginNeverNegative, MinimumMarginIsHalfRoundedUp, WorstCaseAtMostFirstRatio, MoreCashNeverLowers, MoreUnitsNeverLower, FewerOrdersNeverLower, FillWithinOwnPriceNeverLowers, IdleLinesChangeNoFigure, IdleLinesChangeNoGross};
ghost use Rattle.margin.specs.Same.{OrderOfListingChangesNoFigure};

// The worst case, which a formula gives, is the least first ratio over all fillings of the standing orders.
pub fn worst_case_is_least()
    ensures { WorstCaseIsLeastOverFillings }
{}

// A filling as a function of orders and as a list of numbers say the same.
pub fn fillings_are_lists()
    ensures { FillingsAreLists }
{}

// The worst case is at most the first ratio, and that at most the value; so the initial margin is nought or more.
pub fn figures_in_order()
    ensures nought { NoughtIsWorthNought }
    ensures worth { WorthAtMostPriceTimesQuantity }
    ensures shocked { ShockedAtMostItself }
    ensures first { FirstRatioAtMostValue }
    ensures initial { InitialMarginNeverNegative }
    ensures minimum { MinimumMarginIsHalfRoundedUp }
    ensures worst { WorstCaseAtMostFirstRatio }
{}

// Cash, units, a cancelled order and a fair fill never lower the worst case.
pub fn worst_case_not_lowered()
    ensures cash { MoreCashNeverLowers }
    ensures units { MoreUnitsNeverLower }
    ensures orders { FewerOrdersNeverLower }
    ensures fills { FillWithinOwnPriceNeverLowers }
{}

// A line with nothing planned and no order counts for nothing.
pub fn idle_lines_count_nothing()
    ensures figures { IdleLinesChangeNoFigure }
    ensures gross { IdleLinesChangeNoGross }
{}

// The order in which lines and orders are listed counts for nothing.
pub fn listing_counts_nothing()
    ensures { OrderOfListingChangesNoFigure }
{}
