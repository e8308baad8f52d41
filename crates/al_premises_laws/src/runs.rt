ghost use Rattle.al_premises_laws.specs.Met.{AnnotationsAreMet, InputIsMet, LimitsAreMet, NumbersAreMet};
ghost use Rattle.al_premises_laws.specs.Met.{ReportsInOrderAreMet, RunsAreMet, RunsInOrderAreMet, ValuesAreMet};

/// There is a program whose numbers, values, runs and reports meet what the laws of whole runs ask, and there are an
/// input and annotations that do.
pub fn runs_meet()
    ensures values { ValuesAreMet }
    ensures numbers { NumbersAreMet }
    ensures runs { RunsAreMet }
    ensures runs_in_order { RunsInOrderAreMet }
    ensures reports_in_order { ReportsInOrderAreMet }
    ensures limits { LimitsAreMet }
    ensures input { InputIsMet }
    ensures annotations { AnnotationsAreMet }
{}
