//! Laws of reports that are handed on in parts, and of the replies to steps. Each is a function with nothing to do, whose clause is the
//! law; the same statement stands as a term in `proofs/Law.antt`.

ghost use Rattle.std.specs.Prelude.{◌≡◌, ◌<◌, ℕ, ◌+◌, List, [], ◌++◌, length, slice_get, Some, Result, Ok, Err};
ghost use Rattle.net_io.specs.declared.fault.IoFault.{IoFault};
ghost use Rattle.net_io.specs.declared.fault.IoFault.TheVariants.{OutOfMemory as NoMemory};
ghost use Rattle.net_io.specs.Faults.{Rose};
ghost use Rattle.net_io.specs.Sink.{SinkState, WritesPrefix, WritesLess};
ghost use Rattle.script_lines.specs.declared.command.Step.{Step};
ghost use Rattle.node_tables.specs.declared.reply.Reply.{Reply};
ghost use Rattle.node_tables.specs.Steps.{step_reply, tables_after};
ghost use Rattle.call_report.specs.declared.status.Status.{Status as Ending};
ghost use Rattle.call_report.specs.declared.status.Status.TheVariants.{OutOfMemory};
ghost use Rattle.call_report.specs.Status.{write_status};
ghost use Rattle.call_report.specs.Printing.{Breaks, HandsOn, IsUnderWay, Printed};
ghost use Rattle.call_report.specs.Lines.Reply.{reply_text, reply_line_at, replies_text};

/// Two texts that were handed on one behind the other were handed on as one.
pub fn texts_join<T, U>()
    ensures { (first second waits mid still : List ℕ) (x : T) (result : Result U IoFault)
        (a b c : SinkState)
        → HandsOn first waits mid (Ok x) a b → HandsOn second mid still result b c
        → HandsOn (first ++ second) waits still result a c }
{}

/// A text that waits behind what waited: nothing is handed on.
pub fn nothing_is_handed_on<T>()
    ensures { (text waits : List ℕ) (x : T) (a : SinkState)
        → HandsOn text waits (waits ++ text) (Ok x) a a }
{}

/// What waits was handed on behind a text.
pub fn a_text_is_handed_on<T>()
    ensures { (text waits held still : List ℕ) (result : Result T IoFault) (a b : SinkState)
        → held ≡ waits ++ text → HandsOn [] held still result a b
        → HandsOn text waits still result a b }
{}

/// Without memory for a text nothing is handed on.
pub fn no_memory_for_a_line<T>()
    ensures { (line waits still : List ℕ) (a : SinkState)
        → 0 < length line → HandsOn {T = T} line waits still (Err NoMemory) a a }
{}

/// A text fails where a part at its front does.
pub fn a_failing_part_is_a_failing_whole()
    ensures { (text more : List ℕ) (a b : SinkState) → Breaks text a b → Breaks (text ++ more) a b }
{}

/// The same of a text that is handed on.
pub fn a_failing_text_fails_with_more<T, U>()
    ensures { (text more waits still : List ℕ) (fault : IoFault) (a b : SinkState)
        → HandsOn {T = T} text waits still (Err fault) a b
        → HandsOn {T = U} (text ++ more) waits still (Err fault) a b }
{}

/// A report begins with no text.
pub fn a_report_begins()
    ensures { (a : SinkState) → IsUnderWay [] [] a a }
{}

/// A text is added to what waits of a report.
pub fn a_report_takes_a_text()
    ensures { (text waits : List ℕ) (a b : SinkState) → IsUnderWay text waits a b
        → (more : List ℕ) → IsUnderWay (text ++ more) (waits ++ more) a b }
{}

/// A text is handed on behind what a report has handed on.
pub fn a_report_goes_on<T>()
    ensures { (text waits : List ℕ) (a b : SinkState) → IsUnderWay text waits a b
        → (line still : List ℕ) (x : T) (c : SinkState)
        → HandsOn line waits still (Ok x) b c → IsUnderWay (text ++ line) still a c }
{}

/// A report breaks where a text behind it does.
pub fn a_report_breaks()
    ensures { (text waits : List ℕ) (a b : SinkState) → IsUnderWay text waits a b
        → (line : List ℕ) (c : SinkState) → Breaks (waits ++ line) b c → Breaks (text ++ line) a c }
{}

/// A number of faults that rose behind a report rose over all of it.
pub fn faults_rose_over_a_report()
    ensures { (text waits : List ℕ) (a b : SinkState) → IsUnderWay text waits a b
        → (c : SinkState) → Rose b.faults c.faults → Rose a.faults c.faults }
{}

/// A report is printed where its end is printed behind its beginning.
pub fn a_report_is_printed()
    ensures { (text waits : List ℕ) (a b : SinkState) → IsUnderWay text waits a b
        → (last : List ℕ) (due status : Ending) (c : SinkState)
        → Printed waits last due status b c → Printed text last due status a c }
{}

/// A text that was handed on begins a report, and the rest was printed behind it.
pub fn a_text_begins_a_report<T>()
    ensures { (text more still last : List ℕ) (x : T) (due status : Ending) (a b c : SinkState)
        → HandsOn text [] still (Ok x) a b → Printed (still ++ more) last due status b c
        → Printed (text ++ more) last due status a c }
{}

/// A text that fails ends its report.
pub fn a_failing_text_ends_a_report<T>()
    ensures { (text more still last : List ℕ) (fault : IoFault) (due : Ending) (a b : SinkState)
        → HandsOn {T = T} text [] still (Err fault) a b
        → Printed (text ++ more) last due (write_status fault) a b }
{}

/// Without memory nothing is printed.
pub fn no_memory_for_a_report()
    ensures { (body last : List ℕ) (due : Ending) (a : SinkState)
        → Printed body last due OutOfMemory a a }
{}

/// A text that was written is a front of a longer one.
pub fn a_whole_text_is_a_front()
    ensures { (text more old new : List ℕ)
        → new ≡ old ++ text → WritesPrefix (text ++ more) old new }
{}

/// A text of which not all was written is so, too.
pub fn a_part_of_a_text_is_a_front()
    ensures { (text more old new : List ℕ)
        → WritesLess text old new → WritesPrefix (text ++ more) old new }
{}

/// Less of a text is less of a longer one.
pub fn less_of_a_text_is_less_of_more()
    ensures { (text more old new : List ℕ)
        → WritesLess text old new → WritesLess (text ++ more) old new }
{}

/// The replies to no steps are no text.
pub fn no_steps_have_no_replies()
    ensures { (names : List (List ℕ)) (steps : List Step) (k : ℕ)
        → replies_text names steps k 0 ≡ [] }
{}

/// Replies are printed one by one, in the order of their steps.
pub fn replies_come_one_by_one()
    ensures { (names : List (List ℕ)) (steps : List Step) (k count : ℕ)
        → replies_text names steps k (count + 1) ≡ reply_line_at names steps k
        ++ replies_text names steps (k + 1) count }
{}

/// A step is answered under its number and the name of its node, by the tables that the steps before it left.
pub fn a_step_is_answered_at_its_node()
    ensures { (names : List (List ℕ)) (steps : List Step) (k : ℕ) (step : Step) (name : List ℕ)
        (reply : Reply)
        → slice_get steps k ≡ Some step → slice_get names step.node ≡ Some name
        → step_reply (tables_after (length names) steps k) step ≡ Some reply
        → reply_line_at names steps k ≡ reply_text (k + 1) name reply }
{}
