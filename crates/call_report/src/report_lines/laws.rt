//! Laws of lines and their forms.
ghost use Rattle.std.specs.Prelude.{◌≡◌, ◌<◌, ◌^◌, ◌++◌, ℕ, true, List, [], ◌∷◌, length, codes, All, None, Ok};
ghost use Rattle.std.specs.Fmt.{decimal};
ghost use Rattle.std.specs.List.{join_with_byte};
ghost use Rattle.domain_map.specs.address_text.Name.{is_name};
ghost use Rattle.pcap_frames.specs.declared.fault.CaptureFault.{CaptureFault};
ghost use Rattle.pcapng_frames.specs.declared.fault.NgFault.{NgFault};
ghost use Rattle.captures.specs.declared.fault.FileFault.TheVariants.{Pcap, Pcapng};
ghost use Rattle.label_flow.specs.declared.packet_walk.walked.Walked.{Walked};
ghost use Rattle.label_commands.specs.flow_lines.FileName.{is_file_name};
ghost use Rattle.label_commands.specs.declared.flow_lines.hop.Hop.{Hop};
ghost use Rattle.script_lines.specs.declared.stop.LimitName.{LimitName};
ghost use Rattle.label_commands.specs.declared.stop.ScriptFault.{ScriptFault};
ghost use Rattle.node_tables.specs.declared.reply.Refusal.{Refusal};
ghost use Rattle.node_tables.specs.declared.reply.Reply.TheVariants as Reply;
ghost use Rattle.node_tables.specs.Refusal.{refusal_name};
ghost use Rattle.call_report.specs.Lines.Flow.{flow_line, flow_end_line, versions_text, walked_line};
ghost use Rattle.call_report.specs.Lines.Fixed.{done_line, packets_limit_line};
ghost use Rattle.call_report.specs.Lines.Reply.{reply_text, listed_lines};
ghost use Rattle.call_report.specs.Lines.Capture.{kind_name, ng_kind_name, capture_line};
ghost use Rattle.call_report.specs.Lines.Script.{script_kind_name, script_line, limit_name, limit_line, ok_line};
ghost use Rattle.call_report.specs.declared.report_lines.form.Form.{Form};
ghost use Rattle.call_report.specs.declared.report_lines.form.Form.TheVariants as form;
ghost use Rattle.call_report.specs.declared.report_lines.form.Form.TheVariants.{Flow, End, Finished, Done, Refused, Listed, Capture, Limit, Script};
ghost use Rattle.call_report.specs.declared.report_lines.slot.Field.TheVariants as name;
ghost use Rattle.call_report.specs.report_lines.Form.{slots_of};
ghost use Rattle.call_report.specs.report_lines.Line.{line_words, misfit_of, line_form, AreWords};
ghost use Rattle.call_report.specs.report_lines.Told.{IsToldAs};
ghost use Rattle.call_report.specs.report_lines.Written.{end_told, IsBoundedEnd};

/// A line is the text of its words.
pub fn a_line_is_its_words()
    ensures { (line : List ℕ) → join_with_byte 32 (line_words line) ≡ line }
{}

/// Words that are joined by blanks are read back.
pub fn joined_words_are_read_back()
    ensures { (words : List (List ℕ)) → 0 < length words → AreWords words
        → line_words (join_with_byte 32 words) ≡ words }
{}

/// All words of a line that is read fit its form.
pub fn a_line_that_is_read_fits()
    ensures { (line : List ℕ) (form : Form) → line_form line ≡ Ok form
        → misfit_of 0 [] (slots_of form) (line_words line) ≡ None }
{}

/// A line whose words all fit a form is read as that form; so it fits one form at most.
pub fn a_line_that_fits_is_read()
    ensures { (line : List ℕ) (form : Form)
        → misfit_of 0 [] (slots_of form) (line_words line) ≡ None → line_form line ≡ Ok form }
{}

/// What is written of a flow, its end, a command that was carried out or refused, the end of a run, and of how much a script has that was checked is a
/// line, is read as of its form, and tells under each field what was written. Of a command that lists lines it is the line in front of these.
pub fn written_lines_are_told_back()
    ensures flow { (flow : ℕ) (input : List ℕ) → flow < 2 ^ 64 → is_file_name input ≡ true
        → IsToldAs Flow ((name.Flow, decimal flow) ∷ (name.Input, input) ∷ [])
        (flow_line flow input) }
    ensures end { (flow packets passed denied : ℕ) → flow < 2 ^ 64 → packets < 2 ^ 64
        → passed < 2 ^ 64 → denied < 2 ^ 64
        → IsToldAs End ((name.Flow, decimal flow) ∷ (name.Packets, decimal packets)
        ∷ (name.Passed, decimal passed) ∷ (name.Denied, decimal denied) ∷ [])
        (flow_end_line flow packets passed denied) }
    ensures finished { IsToldAs Finished [] done_line }
    ensures ok { (nodes commands flows : ℕ) → nodes < 2 ^ 64 → commands < 2 ^ 64 → flows < 2 ^ 64
        → IsToldAs form.Ok ((name.Nodes, decimal nodes) ∷ (name.Commands, decimal commands)
        ∷ (name.Flows, decimal flows) ∷ []) (ok_line nodes commands flows) }
    ensures done { (step : ℕ) (node : List ℕ) → step < 2 ^ 64 → is_name node ≡ true
        → IsToldAs Done
        ((name.Step, decimal step) ∷ (name.Node, node) ∷ (name.Answer, codes "done") ∷ [])
        (reply_text step node Reply.Done) }
    ensures refused { (step : ℕ) (node : List ℕ) (why : Refusal) → step < 2 ^ 64
        → is_name node ≡ true → IsToldAs Refused
        ((name.Step, decimal step) ∷ (name.Node, node) ∷ (name.Answer, refusal_name why) ∷ [])
        (reply_text step node (Reply.Refused why)) }
    ensures listed { (step : ℕ) (node : List ℕ) (lines : List (List ℕ)) → step < 2 ^ 64
        → is_name node ≡ true → length lines < 2 ^ 64
        → (first : List ℕ) × IsToldAs Listed
        ((name.Step, decimal step) ∷ (name.Node, node) ∷ (name.Answer, codes "listed")
        ∷ (name.Lines, decimal (length lines)) ∷ []) first
        × (reply_text step node (Reply.Listed lines) ≡ first ++ listed_lines lines) }
{}

/// What is written of a packet is a line, is read as of its form, and tells under each field what was written: of one that was delivered, sent, or
/// denied, by what is told of the denial.
pub fn written_packets_are_told_back()
    ensures { (flow number : ℕ) (names : List (List ℕ)) (hops : List Hop) (walked : Walked)
        → flow < 2 ^ 64 → number < 2 ^ 64 → All (λ version. version < 2 ^ 64) walked.versions
        → IsBoundedEnd names hops walked.versions walked.end
        → IsToldAs (end_told names hops walked.end).0
        ((name.Flow, decimal flow) ∷ (name.Number, decimal number)
        ∷ (name.Versions, versions_text walked.versions) ∷ (end_told names hops walked.end).1)
        (walked_line flow number names hops walked) }
{}

/// What is written where a run stops early is a line, is read as of its form, and tells under each field what was written: of a capture's fault, in
/// either format, of a limit that is passed, and of a script's fault.
pub fn written_stops_are_told_back()
    ensures pcap { (number : ℕ) (fault : CaptureFault) → number < 2 ^ 64 → fault.octet < 2 ^ 64
        → IsToldAs Capture ((name.Capture, decimal number) ∷ (name.Octet, decimal fault.octet)
        ∷ (name.Kind, kind_name fault.kind) ∷ []) (capture_line number (Pcap fault)) }
    ensures pcapng { (number : ℕ) (fault : NgFault) → number < 2 ^ 64 → fault.octet < 2 ^ 64
        → IsToldAs Capture ((name.Capture, decimal number) ∷ (name.Octet, decimal fault.octet)
        ∷ (name.Kind, ng_kind_name fault.kind) ∷ []) (capture_line number (Pcapng fault)) }
    ensures limit { (what : LimitName) (number : ℕ) → number < 2 ^ 64
        → IsToldAs Limit ((name.Limit, limit_name what) ∷ (name.Most, decimal number) ∷ [])
        (limit_line what number) }
    ensures packets { IsToldAs Limit
        ((name.Limit, codes "packets") ∷ (name.Most, codes "1048576") ∷ []) packets_limit_line }
    ensures script { (fault : ScriptFault) → fault.line < 2 ^ 64 → fault.octet < 2 ^ 64
        → IsToldAs Script ((name.Line, decimal fault.line) ∷ (name.Octet, decimal fault.octet)
        ∷ (name.Kind, script_kind_name fault.kind) ∷ []) (script_line fault) }
{}
