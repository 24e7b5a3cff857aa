ghost use Rattle.gp_isa.specs.Calls.{TracesAreWhole, TracesFollowCalls};
ghost use Rattle.gp_isa.specs.Names.{TracesNameWhatIsThere, NoTraceElsewhere};
ghost use Rattle.gp_isa.specs.WorkedTraces.{LoopOfACall, looping, FirstOfACircle};

/// Laws of traces: in a checked program following calls deeper gives no other points, so that a function's points
/// are those of its statements, each call standing for the trace of the function called. In parts within their limits
/// what a point names is there, and there are no points of a function that isn't. Two worked programs show a loop of a
/// call, and the first function that can call itself.
pub fn law_trace()
    ensures whole { TracesAreWhole }
    ensures calls { TracesFollowCalls }
    ensures names { TracesNameWhatIsThere }
    ensures elsewhere { NoTraceElsewhere }
    ensures worked { LoopOfACall looping }
    ensures circular { FirstOfACircle }
{}
