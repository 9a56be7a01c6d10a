#![tactic(auto)]

ghost use Rattle.rules.specs.Books.{BooksAnswered};
ghost use Rattle.rules.specs.Laws.{EveryRunIsLawful};
ghost use Rattle.rules.specs.Premises.{PremisesAreMet};
ghost use Rattle.rules.specs.Worked.{WorkedFigures};

// The worked figures, each computed from the definitions.
pub fn worked_figures_hold()
    ensures { WorkedFigures }
{}

// Books of calls: each answer is the rules' after the calls before it.
pub fn books_answered()
    ensures { BooksAnswered }
{}

// Of every history in which each answer was the rules' and each sheet closed, all laws hold.
pub fn every_run_is_lawful()
    ensures { EveryRunIsLawful }
{}

// Such histories there are: a book of orders, fills, notices and new sheets is one.
pub fn premises_are_met()
    ensures { PremisesAreMet }
{}
