//! Laws over the definitions of capture files.

ghost use Rattle.std.specs.Prelude.{◌≡◌, ◌≤◌, ◌^◌, ◌++◌, IsTrue, List, All, map, length, None};
ghost use Rattle.net_io.specs.Depot.{DepotState};
ghost use Rattle.pcap_frames.specs.Record.{Frame};
ghost use Rattle.pcap_frames.specs.Written.{IsWritableFrame};
ghost use Rattle.captures.specs.declared.format.CaptureFormat.{CaptureFormat};
ghost use Rattle.captures.specs.CaptureFile.{IsCaptureFile, frame_of_record};
ghost use Rattle.captures.specs.declared.reader.AnyFrames.{AnyFrames};
ghost use Rattle.captures.specs.Reader.{file_name_of, IsReadable};
ghost use Rattle.captures.specs.Written.{IsTime, file_frames, file_octets};

/// What is written of frames is a capture of these frames in that format, of link type 101. A pcapng file has at most 2^40 octets.
pub fn a_written_file_reads_back()
    ensures { (format : CaptureFormat) (frames : List Frame) → All IsWritableFrame frames
        → All (λ frame. IsTime format frame.head) frames
        → length (file_octets format frames) ≤ 2 ^ 40
        → IsCaptureFile (file_octets format frames)
        (record { format = format; frames = map (frame_of_record 101) frames; fault = None }) }
{}

/// Frames are written one behind another.
pub fn frames_of_a_file_are_written_in_their_order()
    ensures { (format : CaptureFormat) (frames more : List Frame)
        → file_frames format (frames ++ more)
        ≡ file_frames format frames ++ file_frames format more }
{}

/// A reader goes on where its file is what it was.
pub fn a_reader_goes_on_in_a_kept_file()
    ensures { (before after : DepotState) (reader : AnyFrames) → after.tells ≡ before.tells
        → (IsTrue before.tells
        → after.held (file_name_of reader) ≡ before.held (file_name_of reader))
        → IsReadable before reader → IsReadable after reader }
{}
