//! The volumes of D0 to D3.

ghost use Rattle.std.specs.Prelude.{◌≡◌, ◌≢◌, ℕ, ◌<◌, false, Option, Some, None, IsSome, IfOk, IfSome, OnOk, OnErr, List, length, option_map, replicate, vec_len};
ghost use Rattle.rbf_model.specs.Volume.{DiskVolume};
ghost use Rattle.rbf_model.specs.Walk.{step};
ghost use Rattle.rbf_change.specs.Names.{deletion_end};
ghost use Rattle.rbf_access.specs.Faults.{file_fault};
ghost use Rattle.rbf_access.specs.Reading.{IsFdOf, IsReadInto, read_calls};
ghost use Rattle.rbf_walk.specs.Walk.{AnswersWalk, directory_fault, step_calls};
ghost use Rattle.rbf_entries.specs.Places.{AnswersPlace, place_calls, place_found};
ghost use Rattle.rbf_entries.specs.Entering.{entering_calls, widened};
ghost use Rattle.rbf_entries.specs.Attributes.{attribute_calls};
ghost use Rattle.rbf_entries.specs.Deletions.{deletion_calls, descriptor_found};
ghost use Rattle.file_rules.specs.Change.{writes, sizes, sets_attributes, creates, makes_directory};
ghost use Rattle.file_rules.specs.Route.{root_of};
ghost use Rattle.file_drives.specs.Calls.{deleting_calls, making_calls, sizing_calls, writing_calls};
ghost use Rattle.file_drives.specs.Changed.{Asked, ChangesVolume, asking, file_answer, numbered};
ghost use Rattle.file_drives.specs.Drives.{DriveView, drives_seen, ChangesOneDrive};
ghost use Rattle.file_drives.specs.Entries.{IsDeletableOn, IsDeletionOn, IsPlaceAt, IsPlaceOn, MayBeDeletedOn};
ghost use Rattle.file_drives.specs.Mounted.{AgreesOnDrive, AreMounted, ArrivesOn, HasDataFileAt, HasFileAt, MountsAs, OnDisks, ReadsFile, ReadsToMount, disk_at, mounted_at, number_arrived};

use device_table::devices::Devices;
use lock_model::place::FilePlace;
use os9_base::call::OutOfMemory;
use os9_base::name::Name;
use os9_base::registers::TimePacket;
use os9_outer::drive::BlockDriver;
use rbf_access::{FileFault, VolFault, Volume};
use rbf_entries::{
    Deletable, NewAttributes, NewEntry, NewPlace, create_at, delete_at, find_deletable, find_place,
    make_dir_at, set_attr,
};
use rbf_sector::Fd;
use rbf_walk::{DirError, Searcher, walk};
use rbf_write::{NewBytes, set_size, write_at};
use std::alloc::Global;
use std::marker::Model;

/// The most drives of a machine: D0 to D3.
const DRIVES: usize = 4;

/// The state kept for the volumes that are mounted on the drives of a machine. A contract sees the
/// list of the states kept for D0 to D3; `AreMounted` says which volumes these are.
#[derive(Drop)]
pub struct Disks {
    volumes: Vec<Option<Volume>>,
}

impl Model for Disks {
    ghost use Rattle.std.specs.Prelude.{◌≡◌, List, Option, length};
    ghost use Rattle.rbf_access.specs.declared.volume.Volume.{Volume};

    ghost Value = { List (Option Volume) };

    ghost view = { λ d. d.volumes.items };

    ghost invariant = { λ d. length d.volumes.items ≡ 4 };
}

impl Disks {
    /// No volume is mounted on any drive.
    ///
    /// # Errors
    ///
    /// Out of memory.
    pub fn new(alloc: Global) -> Result<Disks, OutOfMemory>
        ensures { IfOk result (λ disks. disks ≡ replicate 4 None) }
    {
        Ok(Disks {
            volumes: no_volumes(alloc)?,
        })
    }

    /// Mounts the volume on the media of drive `n`, in place of the one that was mounted there. The
    /// state kept for the other drives is unchanged.
    ///
    /// # Errors
    ///
    /// `NotRbf` if the drive has no media or the media holds no RBF volume, `Device` if a read of
    /// the drive fails, or out of memory. Each mounted volume is still mounted then.
    pub fn mount(&mut self, alloc: Global, n: u8, devices: &mut Devices) -> Result<(), VolFault>
        requires drive { n < vec_len devices.old.drives }
        requires few { n < 4 }
        ensures mounted { MountsAs result n
            self.old (drives_seen BlockDriver-box devices.old)
            self.new (drives_seen BlockDriver-box devices.new) }
        ensures others { (m : ℕ) → m ≢ n → disk_at self.new m ≡ disk_at self.old m }
        ensures drive { ChangesOneDrive (ReadsToMount result) n
            (drives_seen BlockDriver-box devices.old)
            (drives_seen BlockDriver-box devices.new) }
        ensures terms_kept { devices.new.terms ≡ devices.old.terms }
    {
        match Volume::mount(alloc, &mut *devices.drives[n as usize]) {
            Ok(volume) => {
                self.volumes[n as usize] = Some(volume);
                Ok(())
            }
            Err(fault) => Err(fault),
        }
    }

    /// The root directory of the volume that is mounted on drive `n`; None if none is mounted.
    pub fn root(&self, n: u8) -> Option<FilePlace>
        requires { n < 4 }
        ensures root { (views : List DriveView) (volumes : List (Option DiskVolume))
            → AreMounted self.now views volumes
            → result ≡ option_map (root_of n) (mounted_at volumes n) }
        ensures file { (views : List DriveView) (volumes : List (Option DiskVolume))
            → AreMounted self.now views volumes → IfSome result (HasFileAt self.now views) }
    {
        root_of_kept(&self.volumes[n as usize], n)
    }

    /// The descriptor of a file.
    ///
    /// # Errors
    ///
    /// `Device` if the read of the drive fails.
    pub fn fd(&mut self, devices: &mut Devices, place: FilePlace) -> Result<Fd, FileFault>
        requires file { HasFileAt self.old (drives_seen BlockDriver-box devices.old) place }
        ensures ok { OnDisks self.old (drives_seen BlockDriver-box devices.old) place
            (λ v file. IfOk result (IsFdOf file)) }
        ensures device { OnErr result (IsSome (file_fault result)) }
        ensures drive { ReadsFile place (file_fault result) (λ v file. 1)
            self.old (drives_seen BlockDriver-box devices.old)
            self.new (drives_seen BlockDriver-box devices.new) }
        ensures terms_kept { devices.new.terms ≡ devices.old.terms }
    {
        let drive = place.drive as usize;
        match &mut self.volumes[drive] {
            Some(volume) => volume.fd(&mut *devices.drives[drive], place.number),
            None => unreachable!(),
        }
    }

    /// The size of a file, in bytes.
    ///
    /// # Errors
    ///
    /// `Device` if the read of the drive fails.
    pub fn size(&mut self, devices: &mut Devices, place: FilePlace) -> Result<u32, FileFault>
        requires file { HasFileAt self.old (drives_seen BlockDriver-box devices.old) place }
        ensures ok { OnDisks self.old (drives_seen BlockDriver-box devices.old) place
            (λ v file. IfOk result (λ size. size ≡ length file.contents)) }
        ensures device { OnErr result (IsSome (file_fault result)) }
        ensures drive { ReadsFile place (file_fault result) (λ v file. 1)
            self.old (drives_seen BlockDriver-box devices.old)
            self.new (drives_seen BlockDriver-box devices.new) }
        ensures terms_kept { devices.new.terms ≡ devices.old.terms }
    {
        let drive = place.drive as usize;
        match &mut self.volumes[drive] {
            Some(volume) => volume.size(&mut *devices.drives[drive], place.number),
            None => unreachable!(),
        }
    }

    /// Reads bytes of a file from `at` on into `into`, until `into` is full or the file ends, and
    /// returns their number; 0 at or past the end of the file. The rest of `into` is unchanged.
    ///
    /// # Errors
    ///
    /// `Device` if a read of the drive fails; then `into` may have changed.
    pub fn read_at(
        &mut self,
        devices: &mut Devices,
        place: FilePlace,
        at: u32,
        into: &mut [u8],
    ) -> Result<u32, FileFault>
        requires file { HasFileAt self.old (drives_seen BlockDriver-box devices.old) place }
        ensures ok { OnDisks self.old (drives_seen BlockDriver-box devices.old) place
            (λ v file. IfOk result (IsReadInto file at into.old into.new)) }
        ensures device { OnErr result (IsSome (file_fault result)) }
        ensures drive { ReadsFile place (file_fault result)
            (λ v file. read_calls file at (length into.old))
            self.old (drives_seen BlockDriver-box devices.old)
            self.new (drives_seen BlockDriver-box devices.new) }
        ensures terms_kept { devices.new.terms ≡ devices.old.terms }
    {
        let drive = place.drive as usize;
        match &mut self.volumes[drive] {
            Some(volume) => volume.read_at(&mut *devices.drives[drive], place.number, at, into),
            None => unreachable!(),
        }
    }

    /// Goes from a directory to its file with a name, for a user. The directory must let the user
    /// read it, or execute it in search of a file to execute (OS-9 Technical Reference, I$Open).
    ///
    /// # Errors
    ///
    /// `NotAllowed` if `place` is not a directory or may not be searched, `NotFound` if the name is
    /// not there, `Device` if a read of the drive fails.
    pub fn walk_to(
        &mut self,
        devices: &mut Devices,
        place: FilePlace,
        name: &Name,
        by: Searcher,
    ) -> Result<FilePlace, DirError>
        requires file { HasFileAt self.old (drives_seen BlockDriver-box devices.old) place }
        ensures walked { OnDisks self.old (drives_seen BlockDriver-box devices.old) place
            (λ v file. AnswersWalk (step (Some file) by.user by.execute name.now)
            (number_arrived result)) }
        ensures file { IfOk result (ArrivesOn place.drive self.new
            (drives_seen BlockDriver-box devices.new)) }
        ensures drive { ReadsFile place (directory_fault result)
            (λ v file. step_calls (Some file) by.user by.execute name.now)
            self.old (drives_seen BlockDriver-box devices.old)
            self.new (drives_seen BlockDriver-box devices.new) }
        ensures terms_kept { devices.new.terms ≡ devices.old.terms }
    {
        let drive = place.drive as usize;
        match &mut self.volumes[drive] {
            Some(volume) => placed(
                place.drive,
                walk(
                    volume,
                    &mut *devices.drives[drive],
                    place.number,
                    &[*name],
                    by,
                ),
            ),
            None => unreachable!(),
        }
    }

    /// Writes bytes to a file that is not a directory, from a place on. If the place is past the
    /// end, zeros fill the file between its end and the place. A write that changes the size sets
    /// the date. A write of no bytes changes nothing and does not call the drive (OS-9 System
    /// Programmer's Manual, I$Write).
    ///
    /// # Errors
    ///
    /// Without a drive fault: `NoCluster` exactly if fewer clusters are free than the write needs,
    /// and `TooManyRuns` if the list of segments has no place for a chosen cluster; nothing has
    /// changed then. `Device` if a call of the drive fails: then the file may have a first part of
    /// the bytes, and clusters may be lost; a call that had to be refused has changed nothing.
    pub fn write_at(
        &mut self,
        devices: &mut Devices,
        place: FilePlace,
        write: NewBytes<'_>,
    ) -> Result<(), FileFault>
        requires file { HasDataFileAt self.old (drives_seen BlockDriver-box devices.old) place }
        ensures changed { (user : ℕ) → ChangesVolume place
            (asking (writes place.number write.entry.at write.entry.bytes.now) user
            write.entry.date)
            (file_answer result)
            (writing_calls place.number write.entry.at (length write.entry.bytes.now) result)
            self.old (drives_seen BlockDriver-box devices.old)
            self.new (drives_seen BlockDriver-box devices.new) }
        ensures terms_kept { devices.new.terms ≡ devices.old.terms }
    {
        let drive = place.drive as usize;
        match &mut self.volumes[drive] {
            Some(volume) => write_at(volume, &mut *devices.drives[drive], place.number, write),
            None => unreachable!(),
        }
    }

    /// Gives a file that is not a directory a size, in bytes. A longer file gains the clusters that
    /// it needs, and the added bytes are zeros; a shorter one gives back the clusters that it no
    /// longer needs. Either sets its date. Setting the current size changes nothing (OS-9 System
    /// Programmer's Manual, I$SetStt, SS.Size).
    ///
    /// # Errors
    ///
    /// Without a drive fault: `NoCluster` exactly if fewer clusters are free than the size needs,
    /// and `TooManyRuns` if the list of segments has no place for a chosen cluster; nothing has
    /// changed then. `Device` if a call of the drive fails: then the file is unchanged or has been
    /// cut, and clusters may be lost; a call that had to be refused has changed nothing.
    pub fn set_size(
        &mut self,
        devices: &mut Devices,
        place: FilePlace,
        size: u32,
        now: TimePacket,
    ) -> Result<(), FileFault>
        requires file { HasDataFileAt self.old (drives_seen BlockDriver-box devices.old) place }
        ensures changed { (user : ℕ) → ChangesVolume place
            (record { change = sizes place.number size; user = user; now = now })
            (file_answer result)
            (sizing_calls (record { number = place.number; size = size; now = now }) result)
            self.old (drives_seen BlockDriver-box devices.old)
            self.new (drives_seen BlockDriver-box devices.new) }
        ensures terms_kept { devices.new.terms ≡ devices.old.terms }
    {
        let drive = place.drive as usize;
        match &mut self.volumes[drive] {
            Some(volume) => set_size(volume, &mut *devices.drives[drive], place.number, size, now),
            None => unreachable!(),
        }
    }

    /// Gives a file or directory other attributes, for a user (SS.Attr, this project's own
    /// argument). Bit 7, which says whether it is a directory, is unchanged, and the date of its
    /// last change is the one that is asked for.
    ///
    /// # Errors
    ///
    /// `NotAllowed` for any user but its owner and user 0, `Device` if an access of the drive
    /// fails; then nothing has changed.
    pub fn set_attr(
        &mut self,
        devices: &mut Devices,
        place: FilePlace,
        asked: NewAttributes,
    ) -> Result<(), DirError>
        requires file { HasFileAt self.old (drives_seen BlockDriver-box devices.old) place }
        ensures changed { ChangesVolume place
            (asking (sets_attributes place.number asked.attr) asked.user asked.date)
            (numbered result) (λ v file left. attribute_calls file asked.user)
            self.old (drives_seen BlockDriver-box devices.old)
            self.new (drives_seen BlockDriver-box devices.new) }
        ensures terms_kept { devices.new.terms ≡ devices.old.terms }
    {
        let drive = place.drive as usize;
        match &mut self.volumes[drive] {
            Some(volume) => set_attr(volume, &mut *devices.drives[drive], place.number, asked),
            None => unreachable!(),
        }
    }

    /// The place in a directory for a new entry with a name, for a user: the first free one, or the
    /// one after the last (OS-9 Technical Reference, I$Create and I$MakDir).
    ///
    /// # Errors
    ///
    /// In this order: `BadPath` for the names `.` and `..`, before any access of the drive;
    /// `NotAllowed` if the user may not search or may not write the directory; `Exists` if the name
    /// is there. `Device` if an access of the drive fails.
    pub fn find_place(
        &mut self,
        devices: &mut Devices,
        dir: FilePlace,
        name: &Name,
        by: Searcher,
    ) -> Result<NewPlace, DirError>
        requires file { HasFileAt self.old (drives_seen BlockDriver-box devices.old) dir }
        ensures answer { OnDisks self.old (drives_seen BlockDriver-box devices.old) dir
            (λ v file. AnswersPlace file name.now by.user by.execute (place_found result)) }
        ensures found { IfOk result (IsPlaceOn (drives_seen BlockDriver-box devices.new)
            dir name.now by.user by.execute) }
        ensures drive { ReadsFile dir (directory_fault result)
            (λ v file. place_calls file name.now by.user by.execute)
            self.old (drives_seen BlockDriver-box devices.old)
            self.new (drives_seen BlockDriver-box devices.new) }
        ensures terms_kept { devices.new.terms ≡ devices.old.terms }
    {
        let drive = dir.drive as usize;
        match &mut self.volumes[drive] {
            Some(volume) => find_place(volume, &mut *devices.drives[drive], dir.number, name, by),
            None => unreachable!(),
        }
    }

    /// The entry of a directory with a name, if a user may delete it: an entry of a file, not of a
    /// directory (OS-9 Technical Reference, I$Delete).
    ///
    /// # Errors
    ///
    /// `NotAllowed` if the user may not search or may not write the directory; `NotFound` if the
    /// name is not there; `NotAllowed` for a directory or a file that the user may not write;
    /// `Device` if an access of the drive fails.
    pub fn find_deletable(
        &mut self,
        devices: &mut Devices,
        dir: FilePlace,
        name: &Name,
        by: Searcher,
    ) -> Result<Deletable, DirError>
        requires file { HasFileAt self.old (drives_seen BlockDriver-box devices.old) dir }
        ensures answer { OnDisks self.old (drives_seen BlockDriver-box devices.old) dir
            (λ v file. AnswersWalk (deletion_end v.files file name.now by.user by.execute)
            (descriptor_found result)) }
        ensures found { IfOk result (IsDeletableOn (drives_seen BlockDriver-box devices.new)
            dir name.now) }
        ensures drive { ReadsFile dir (directory_fault result)
            (λ v file. deletion_calls file name.now by.user by.execute)
            self.old (drives_seen BlockDriver-box devices.old)
            self.new (drives_seen BlockDriver-box devices.new) }
        ensures terms_kept { devices.new.terms ≡ devices.old.terms }
    {
        let drive = dir.drive as usize;
        match &mut self.volumes[drive] {
            Some(volume) => find_deletable(
                volume,
                &mut *devices.drives[drive],
                dir.number,
                name,
                by,
            ),
            None => unreachable!(),
        }
    }

    /// Creates a file without contents, with a name that is not yet in the directory, at the place
    /// that [`Disks::find_place`] has returned, for the user for whom it was found. Returns the
    /// number of its descriptor (OS-9 Technical Reference, I$Create).
    ///
    /// # Errors
    ///
    /// In this order: `NoCluster` if fewer clusters are free than the file and its entry need,
    /// `TooManyRuns` if the directory needs a cluster and already has all its segments; then
    /// nothing has changed, and the drive was not called. `Device` if an access of the drive fails:
    /// then the tree is unchanged, and clusters may be lost.
    pub fn create_at(
        &mut self,
        devices: &mut Devices,
        dir: FilePlace,
        found: &NewPlace,
        file: &NewEntry,
    ) -> Result<u32, FileFault>
        requires file { HasFileAt self.old (drives_seen BlockDriver-box devices.old) dir }
        requires place { IsPlaceAt (drives_seen BlockDriver-box devices.old)
            dir file.now.name found.now }
        requires attributes { file.now.attr < 128 }
        ensures changed { ChangesVolume dir
            (asking (creates dir.number file.now.name file.now.attr)
            found.now.by.user file.now.date)
            (widened result) (λ v folder left. entering_calls v folder 2 (widened result))
            self.old (drives_seen BlockDriver-box devices.old)
            self.new (drives_seen BlockDriver-box devices.new) }
        ensures terms_kept { devices.new.terms ≡ devices.old.terms }
    {
        let drive = dir.drive as usize;
        match &mut self.volumes[drive] {
            Some(volume) => create_at(volume, &mut *devices.drives[drive], found, file),
            None => unreachable!(),
        }
    }

    /// Makes a directory with a name that is not yet in its parent, at the place that
    /// [`Disks::find_place`] has returned to a user who searched to read. Returns the number of its
    /// descriptor (OS-9 Technical Reference, I$MakDir).
    ///
    /// # Errors
    ///
    /// As [`Disks::create_at`].
    pub fn make_dir_at(
        &mut self,
        devices: &mut Devices,
        dir: FilePlace,
        found: &NewPlace,
        file: &NewEntry,
    ) -> Result<u32, FileFault>
        requires file { HasFileAt self.old (drives_seen BlockDriver-box devices.old) dir }
        requires place { IsPlaceAt (drives_seen BlockDriver-box devices.old)
            dir file.now.name found.now }
        requires reading { found.now.by.execute ≡ false }
        ensures changed { ChangesVolume dir
            (asking (makes_directory dir.number file.now.name file.now.attr)
            found.now.by.user file.now.date)
            (widened result) (making_calls (widened result))
            self.old (drives_seen BlockDriver-box devices.old)
            self.new (drives_seen BlockDriver-box devices.new) }
        ensures terms_kept { devices.new.terms ≡ devices.old.terms }
    {
        let drive = dir.drive as usize;
        match &mut self.volumes[drive] {
            Some(volume) => make_dir_at(volume, &mut *devices.drives[drive], found, file),
            None => unreachable!(),
        }
    }

    /// Deletes the file whose entry [`Disks::find_deletable`] has found (OS-9 Technical Reference,
    /// I$Delete): it makes the entry free, and then the clusters. `find_deletable` has tested
    /// whether the user may delete the file; that is not tested here.
    ///
    /// # Errors
    ///
    /// `Device` if an access of the drive fails: then nothing has changed, or the file is deleted
    /// and some of its clusters may be lost.
    pub fn delete_at(
        &mut self,
        devices: &mut Devices,
        dir: FilePlace,
        found: &Deletable,
    ) -> Result<(), FileFault>
        requires file { HasFileAt self.old (drives_seen BlockDriver-box devices.old) dir }
        requires entry { MayBeDeletedOn (drives_seen BlockDriver-box devices.old) dir found.now }
        ensures changed { (asked : Asked) → IsDeletionOn dir found.now asked
            (drives_seen BlockDriver-box devices.old)
            → ChangesVolume dir asked (file_answer result) (deleting_calls found.now.descriptor)
            self.old (drives_seen BlockDriver-box devices.old)
            self.new (drives_seen BlockDriver-box devices.new) }
        ensures terms_kept { devices.new.terms ≡ devices.old.terms }
    {
        let drive = dir.drive as usize;
        match &mut self.volumes[drive] {
            Some(volume) => delete_at(volume, &mut *devices.drives[drive], found),
            None => unreachable!(),
        }
    }
}

/// The root directory of the volume that is mounted on a drive, by the state kept for the drive.
fn root_of_kept(kept: &Option<Volume>, n: u8) -> Option<FilePlace>
    ensures { (view : DriveView) (volume : Option DiskVolume)
        → AgreesOnDrive kept.now view volume → result ≡ option_map (root_of n) volume }
{
    match kept {
        Some(volume) => Some(FilePlace {
            drive: n,
            number: volume.root(),
        }),
        None => None,
    }
}

/// The place on a drive of the file at the end of a walk.
fn placed(drive: u8, arrived: Result<u32, DirError>) -> Result<FilePlace, DirError>
    ensures number { number_arrived result ≡ arrived }
    ensures drive { IfOk result (λ place. place.drive ≡ drive) }
{
    match arrived {
        Ok(number) => Ok(FilePlace { drive, number }),
        Err(error) => Err(error),
    }
}

/// No volume for any of the drives.
fn no_volumes(alloc: Global) -> Result<Vec<Option<Volume>>, OutOfMemory>
    ensures { IfOk result (λ volumes. volumes.items ≡ replicate 4 None) }
{
    let mut volumes = Vec::with_capacity(alloc, DRIVES)?;
    'fill: while volumes.len() < DRIVES {
        if volumes.push(None).is_err() {
            return Err(OutOfMemory);
        }
    }
    Ok(volumes)
}
