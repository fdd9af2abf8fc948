//! What the definitions say of each other, for all lines.

ghost use Rattle.std.specs.Prelude.{◌≡◌, ◌<◌, ◌≤◌, ℕ, List, [], ◌∷◌, ◌++◌, length, drop, All, Ok, Err};
ghost use Rattle.script_lines.specs.declared.stop.LineFault.{LineFault};
ghost use Rattle.script_lines.specs.declared.stop.LineStop.TheVariants as Stop;
ghost use Rattle.script_lines.specs.Word.{LineWord};
ghost use Rattle.label_commands.specs.declared.flow_lines.flow.FlowLine.{FlowLine};
ghost use Rattle.label_commands.specs.flow_lines.Hop.{IsRoute, node_of};
ghost use Rattle.label_commands.specs.flow_lines.Flow.{read_route, read_flow};
ghost use Rattle.label_commands.specs.flow_lines.Apart.{AreApart};

/// A flow has 1 to 16 hops; only the first may send, and only the last receive.
pub fn hops_are_a_route()
    ensures { (own : List ℕ) (nodes : List (List ℕ)) (flows : List FlowLine) (before end : ℕ)
        (words : List LineWord) (flow : FlowLine)
        → read_flow own nodes flows before end words ≡ Ok flow → IsRoute flow.hops }
{}

/// Each hop is of a node that a line above names.
pub fn hops_are_of_named_nodes()
    ensures { (own : List ℕ) (nodes : List (List ℕ)) (flows : List FlowLine) (before end : ℕ)
        (words : List LineWord) (flow : FlowLine)
        → read_flow own nodes flows before end words ≡ Ok flow
        → All (λ hop. node_of hop < length nodes) flow.hops }
{}

/// A flow that is read keeps the rule on names.
pub fn names_stay_apart()
    ensures { (own : List ℕ) (nodes : List (List ℕ)) (flows : List FlowLine) (before end : ℕ)
        (words : List LineWord) (flow : FlowLine)
        → AreApart own flows → read_flow own nodes flows before end words ≡ Ok flow
        → AreApart own (flows ++ flow ∷ []) }
{}

/// A fault stands within the line, or at its length.
pub fn faults_stand_in_the_line()
    ensures { (own : List ℕ) (nodes : List (List ℕ)) (flows : List FlowLine) (before end : ℕ)
        (words : List LineWord) (found : LineFault)
        → All (λ word. word.at ≤ end) words
        → read_flow own nodes flows before end words ≡ Err (Stop.Fault found)
        → found.octet ≤ end }
{}

/// The hops of a flow are what the words behind its two names say.
pub fn hops_stand_behind_the_names()
    ensures { (own : List ℕ) (nodes : List (List ℕ)) (flows : List FlowLine) (before end : ℕ)
        (words : List LineWord) (flow : FlowLine)
        → read_flow own nodes flows before end words ≡ Ok flow
        → read_route nodes end (drop 2 words) ≡ Ok flow.hops }
{}
