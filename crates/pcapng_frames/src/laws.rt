//! Laws over the definitions of pcapng captures.
ghost use Rattle.std.specs.Prelude.{◌≡◌, ◌≤◌, ◌^◌, ◌++◌, ℕ, List, [], length, drop, All, Some, None, Ok, Err};
ghost use Rattle.pcapng_frames.specs.declared.fault.NgFault.{NgFault};
ghost use Rattle.pcapng_frames.specs.Section.{Section, no_section};
ghost use Rattle.pcapng_frames.specs.Block.{NgFrame, block_at};
ghost use Rattle.pcapng_frames.specs.Written.{IsWritableNg, ng_octets};
ghost use Rattle.pcapng_frames.specs.Capture.{NgCapture, with_block, frames_at, ng_of, IsNg};
ghost use Rattle.pcapng_frames.specs.Reader.{NgReader, NgStandsIn, begun_block, next_at, found_first, in_front};

/// A pcapng file is read in one way.
pub fn a_pcapng_file_has_one_reading()
    ensures { (octets : List ℕ) (one other : NgCapture) → IsNg octets one → IsNg octets other
        → one ≡ other }
{}

/// What comes from a place on is what the block there gives, and what comes behind it.
pub fn blocks_come_one_behind_another()
    ensures { (section : Section) (at : ℕ) (rest : List ℕ)
        → frames_at section at rest ≡ with_block frames_at at rest (block_at section at rest) }
{}

/// Where the first block begins a section, what comes behind it is all of the file.
pub fn the_first_block_gives_no_frame()
    ensures { (reader : NgReader) (file : List ℕ)
        → block_at no_section 0 file ≡ Ok (begun_block reader)
        → ng_of file ≡ frames_at reader.section reader.place (drop reader.place file) }
{}

/// Where it has a fault, the file has no frame.
pub fn a_fault_of_the_first_block_is_the_files()
    ensures { (file : List ℕ) (fault : NgFault) → block_at no_section 0 file ≡ Err fault
        → ng_of file ≡ record { frames = []; fault = Some fault } }
{}

/// What comes from a place on is what the next answer of a reader there gives, and what comes behind it.
pub fn answers_come_one_behind_another()
    ensures { (section : Section) (file : List ℕ) (at : ℕ)
        → frames_at section at (drop at file) ≡ found_first file
        (next_at section at (drop at file)) }
{}

/// The capture in which a reader stands has what the blocks up to its place give, and then what comes from there on.
pub fn a_pcapng_reader_stands_in_its_capture()
    ensures { (reader : NgReader) (file : List ℕ) (stands : NgStandsIn reader file)
        → ng_of file ≡ in_front stands.chain.blocks
        (frames_at reader.section reader.place (drop reader.place file)) }
{}

/// A reader that stands in a file stands in it still when the file has grown.
pub fn a_pcapng_reader_stands_in_a_longer_file()
    ensures { (reader : NgReader) (file more : List ℕ) → NgStandsIn reader file
        → NgStandsIn reader (file ++ more) }
{}

/// What is written of frames of raw IP is a pcapng file of these frames.
pub fn a_written_pcapng_file_reads_back()
    ensures { (frames : List NgFrame) → All IsWritableNg frames → length (ng_octets frames) ≤ 2 ^ 40
        → IsNg (ng_octets frames) (record { frames = frames; fault = None }) }
{}

/// The first fault of a file stands at most at the file's length.
pub fn faults_stand_within_the_pcapng_file()
    ensures { (file : List ℕ) (fault : NgFault) → (ng_of file).fault ≡ Some fault
        → fault.octet ≤ length file }
{}
