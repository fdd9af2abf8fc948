//! A report's file.
ghost use Rattle.std.specs.Prelude.{◌≡◌, ◌<◌, ◌≤◌, ℕ, List, [], IsTrue, IsSome, length, drop, nat_lt, IfOk, OnOk};
ghost use Rattle.net_io.specs.Depot.{DepotState, octets_of, OnlyReads};
ghost use Rattle.call_report.specs.report_file.File.{KeepsPart};
ghost use Rattle.call_report.specs.report_file.Meeting.{IsMet};
ghost use Rattle.call_report.specs.report_file.Versions.{EndsWithVersions, AreVersions};

use crate::report_file::meeting::{Met, meet};
use crate::report_file::naming::name_versions;
use net_io::{Depot, IoFault, OutOfMemory, Window, read_full};
use std::alloc::Global;
use std::marker::Model;

/// A report's file, of which a window of 65,536 octets is kept. Octets are counted from 0.
#[derive(Drop)]
pub struct ReportFile {
    name: String,
    place: u64,
    window: Window,
}

impl Model for ReportFile {
    ghost use Rattle.std.specs.Prelude.{◌+◌, ◌<◌, ◌^◌, length, string_bytes};
    ghost use Rattle.call_report.specs.report_file.File.{ReportPart};

    ghost Value = { ReportPart };

    ghost view = { λ f. record { name = string_bytes f.name; place = f.place; ahead = f.window } };

    ghost invariant = { λ f. f.place + length f.window < 2 ^ 64 };
}

impl ReportFile {
    /// The file of this name, of which nothing is read yet.
    pub fn new(alloc: Global, name: &str) -> Result<ReportFile, OutOfMemory>
        ensures name { IfOk result (λ file. file.name ≡ name.now) }
        ensures keeps { IfOk result (λ file. (folder : DepotState) → KeepsPart folder file) }
    {
        let own_name = String::from_str(alloc, name)?;
        let window = Window::new(alloc)?;
        Ok(ReportFile {
            name: own_name,
            place: 0,
            window,
        })
    }

    /// Whether the file has more than `most` octets: one octet is read. `Failed` comes only where the count of failed reads of the
    /// file's name rose in this call.
    pub fn is_longer<D: Depot>(&self, depot: &mut D, most: u64) -> Result<bool, IoFault>
        ensures longer { IfOk result (λ longer. IsTrue (D.state depot.old).tells
            → longer ≡ nat_lt most (length (octets_of ((D.state depot.old).held self.now.name)))) }
        ensures present { OnOk result
            (IsTrue (D.state depot.old).tells
            → IsSome ((D.state depot.old).held self.now.name)) }
        ensures frame { OnlyReads IoFault.Failed result self.now.name (D.state depot.old)
            (D.state depot.new) }
    {
        let mut octet = [0u8; 1];
        let count = read_full(depot, self.name.as_str(), most, &mut octet)?;
        Ok(count > 0)
    }

    /// Whether a text stands from the octet `at` on, or behind how many ends of lines it differs from what stands there. `Failed` comes
    /// only where the count of failed reads of the file's name rose in this call, `OutOfMemory` only from the folder.
    pub fn meets<D: Depot>(&mut self, depot: &mut D, at: u64, text: &[u8]) -> Result<Met, IoFault>
        requires { KeepsPart (D.state depot.old) self.old }
        ensures met { IfOk result (λ met. IsTrue (D.state depot.old).tells → IsMet met
            (drop at (octets_of ((D.state depot.old).held self.old.name))) text.now) }
        ensures keeps { KeepsPart (D.state depot.new) self.new }
        ensures name { self.new.name ≡ self.old.name }
        ensures frame { OnlyReads IoFault.Failed result self.old.name (D.state depot.old)
            (D.state depot.new) }
    {
        meet(
            depot,
            self.name.as_str(),
            at,
            &mut self.place,
            &mut self.window,
            text,
        )
    }

    /// Reads the versions that the line which stands from the octet `at` on names at its end, and tells whether it names any: behind its
    /// last blank at most 16 numbers below 2^32 without leading zeros, joined by commas, or `-` for none, and then LF. Where it names none,
    /// `versions` holds anything. `Failed` comes only where the count of failed reads of the file's name rose in this call.
    pub fn versions_at<D: Depot>(
        &mut self,
        depot: &mut D,
        at: u64,
        versions: &mut Vec<u32>,
    ) -> Result<bool, IoFault>
        requires { KeepsPart (D.state depot.old) self.old }
        ensures named { IfOk result (λ named. IsTrue (D.state depot.old).tells → IsTrue named
            → EndsWithVersions (drop at (octets_of ((D.state depot.old).held self.old.name)))
            versions.new.items) }
        ensures each { IfOk result (λ named. IsTrue (D.state depot.old).tells
            → (others : List ℕ) → AreVersions others
            → EndsWithVersions (drop at (octets_of ((D.state depot.old).held self.old.name)))
            others → IsTrue named × (versions.new.items ≡ others)) }
        ensures few { IfOk result (λ named. IsTrue named → length versions.new.items ≤ 16) }
        ensures keeps { KeepsPart (D.state depot.new) self.new }
        ensures name { self.new.name ≡ self.old.name }
        ensures frame { OnlyReads IoFault.Failed result self.old.name (D.state depot.old)
            (D.state depot.new) }
    {
        name_versions(
            depot,
            self.name.as_str(),
            at,
            &mut self.place,
            &mut self.window,
            versions,
        )
    }
}
