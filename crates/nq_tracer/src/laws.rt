//! Laws of the inductions that a trace shows. What a caller gets is the law.
ghost use Rattle.nq_tracer.specs.Cases.{CallsGiveCases};
ghost use Rattle.nq_tracer.specs.Falls.{DefinitionsFall};
ghost use Rattle.nq_tracer.specs.Steps.{OneMoveIsTrace};

use nq_falls::ground_definitions_fall;

/// The measures of definitions fall at each call of the function.
pub fn definitions_fall()
    ensures { DefinitionsFall }
{
    ground_definitions_fall();
}

/// Each call within the body of a function gives a case of the scheme that a call of the function suggests.
pub fn calls_give_cases()
    ensures { CallsGiveCases }
{}

/// The goals of one move from a first goal are the steps of a trace.
pub fn one_move()
    ensures { OneMoveIsTrace }
{}
