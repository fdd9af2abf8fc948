//! Laws over the definitions of captures.
ghost use Rattle.std.specs.Prelude.{◌≡◌, ◌≤◌, ℕ, Bool, List, ◌++◌, length, drop, All, Some, None, Ok, Err};
ghost use Rattle.net_io.specs.declared.file_window.order.OctetOrder.{OctetOrder};
ghost use Rattle.net_io.specs.declared.file_window.order.OctetOrder.TheVariants.{Little};
ghost use Rattle.pcap_frames.specs.declared.fault.CaptureFault.{CaptureFault};
ghost use Rattle.pcap_frames.specs.Record.{Frame, record_at};
ghost use Rattle.pcap_frames.specs.Capture.{Capture, go_on, records_at, capture_of, fault_of, IsCapture};
ghost use Rattle.pcap_frames.specs.Reader.{Reader, ReaderStandsIn};
ghost use Rattle.pcap_frames.specs.Written.{IsWritableFrame, frames_octets, capture_octets};

/// A capture is read in one way.
pub fn a_capture_has_one_reading()
    ensures { (octets : List ℕ) (one other : Capture) → IsCapture octets one
        → IsCapture octets other → one ≡ other }
{}

/// All records from a place on are the one there and those behind it.
pub fn records_come_one_behind_another()
    ensures { (order : OctetOrder) (at : ℕ) (rest : List ℕ)
        → records_at order at rest ≡ go_on (records_at order) at rest (record_at order at rest) }
{}

/// The capture in which a reader stands has the records up to its place, and then those that stand there.
pub fn a_reader_stands_in_its_capture()
    ensures { (reader : Reader) (file : List ℕ) (stands : ReaderStandsIn reader file)
        → let behind = records_at reader.header.order reader.place (drop reader.place file) in
        capture_of file ≡ Ok
        (record {
          header = reader.header;
          frames = stands.frames
              ++ behind.frames;
          fault = behind.fault;
        }) }
{}

/// A reader that stands in a file stands in it still when the file has grown.
pub fn a_reader_stands_in_a_longer_file()
    ensures { (reader : Reader) (file more : List ℕ) → ReaderStandsIn reader file
        → ReaderStandsIn reader (file ++ more) }
{}

/// The first fault of a file stands at most at the file's length.
pub fn faults_stand_within_the_file()
    ensures { (file : List ℕ) (fault : CaptureFault) → fault_of file ≡ Some fault
        → fault.octet ≤ length file }
{}

/// So does a fault at the place of a reader.
pub fn a_readers_fault_stands_within_the_file()
    ensures { (reader : Reader) (file : List ℕ) (fault : CaptureFault) → ReaderStandsIn reader file
        → record_at reader.header.order reader.place (drop reader.place file) ≡ Err fault
        → fault.octet ≤ length file }
{}

/// What is written of frames is a capture of these frames, with its resolution and link type 101.
pub fn a_written_capture_reads_back()
    ensures { (nanos : Bool) (frames : List Frame) → All IsWritableFrame frames
        → IsCapture (capture_octets nanos frames)
        (record {
          header = record { order = Little; nanos = nanos; link = 101 };
          frames = frames;
          fault = None;
        }) }
{}

/// Frames are written one behind another.
pub fn frames_are_written_in_their_order()
    ensures { (frames more : List Frame) → frames_octets (frames ++ more) ≡ frames_octets frames
        ++ frames_octets more }
{}
