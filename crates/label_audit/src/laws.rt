//! What the definitions are worth, whatever the code does.

ghost use Rattle.std.specs.Prelude.{◌≡◌, ◌≤◌, ◌++◌, ℕ, List, All};
ghost use Rattle.domain_map.specs.address_text.Name.{IsNameText};
ghost use Rattle.label_commands.specs.declared.flow_lines.hop.Hop.{Hop};
ghost use Rattle.label_commands.specs.declared.script.Script.{Script};
ghost use Rattle.label_flow.specs.declared.packet_walk.walked.Walked.{Walked};
ghost use Rattle.call_report.specs.Report.{Folder};
ghost use Rattle.call_report.specs.Lines.Flow.{walked_line};
ghost use Rattle.call_report.specs.report_file.Meeting.{lines_in};
ghost use Rattle.call_report.specs.report_file.Versions.{EndsWithVersions};
ghost use Rattle.label_audit.specs.Good.{IsReport, IsGood, IsFirstBad};

/// A report has at most one line that is the first which isn't good.
pub fn a_report_has_one_first_bad_line()
    ensures { (script : Script) (workers : ℕ) (held : Folder) (report : List ℕ) (l l' : ℕ)
        → IsFirstBad script workers held report l → IsFirstBad script workers held report l'
        → l ≡ l' }
{}

/// All lines of a whole report are good.
pub fn lines_of_a_whole_report_are_good()
    ensures { (script : Script) (workers : ℕ) (held : Folder) (report : List ℕ)
        → IsReport script workers held report → (l : ℕ) → l ≤ lines_in report
        → IsGood script workers held report l }
{}

/// A packet's line names its versions at its end, whatever became of the packet: no line ends in front of them, with whatever label,
/// address or name.
pub fn lines_of_packets_name_their_versions()
    ensures { (flow number : ℕ) (names : List (List ℕ)) (hops : List Hop) (walked : Walked)
        (behind : List ℕ) → All IsNameText names
        → EndsWithVersions (walked_line flow number names hops walked ++ behind) walked.versions }
{}
