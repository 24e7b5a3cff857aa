ghost use Rattle.std.specs.Prelude.{◌≡◌, [], ◌∷◌, IfOk, IfErr, OnOk, OnErr, string_bytes};
ghost use Rattle.gp_journal.specs.Settings.{AreInRange};
ghost use Rattle.gp_wire.specs.Canonical.{canon};
ghost use Rattle.gp_wire.specs.Reading.{value_of, Gives};
ghost use Rattle.gp_wire.specs.RoundTrip.{IsValid};
ghost use Rattle.gp_build.specs.Profile.{goroutine_profile_of};
ghost use Rattle.gp_build.specs.Contention.{contention_profile_of};
ghost use Rattle.gp_top.specs.Files as definition;
ghost use Rattle.gp_top.specs.Files.{TextFile, ProfileFile, goroutine_files, cpu_file, files_of};
ghost use Rattle.gp_top.specs.Putting.{ArePut, OneFails};
ghost use Rattle.gp_top.specs.kept.Steps.{SaveStops, IsRan};

use crate::report::Ran;
use gp_build::{contention_profile, cpu_profile, goroutine_profile};
use gp_events::Sums;
use gp_io::{Failed, Store};
use gp_isa::{Content, Memory, Program};
use gp_machine::Settings;
use gp_stack::{Profiles, Records};
use gp_wire::{Profile, law_round_trip, write};
use std::alloc::Global;

/// Why not all files were put.
#[derive(Clone, Copy)]
pub(crate) enum SaveError {
    /// A put failed.
    PutFault,
    Memory,
}

impl From<Failed> for SaveError {
    ghost use Rattle.std.specs.Prelude.{◌≡◌};
    ghost use Rattle.gp_top.specs.declared.save.SaveError.TheVariants.{PutFault as Fault};

    ghost from_gives = { λ _ e. e ≡ Fault };

    fn from(_error: Failed) -> SaveError {
        SaveError::PutFault
    }
}

impl From<Memory> for SaveError {
    ghost use Rattle.std.specs.Prelude.{◌≡◌};
    ghost use Rattle.gp_top.specs.declared.save.SaveError.TheVariants.{Memory as OutOfMemory};

    ghost from_gives = { λ _ e. e ≡ OutOfMemory };

    fn from(_error: Memory) -> SaveError {
        SaveError::Memory
    }
}

/// Puts a text under a name.
pub(crate) fn put_text<K: Store>(name: &str, text: &[u8], store: &mut K) -> Result<(), Failed>
    ensures put { OnOk result (ArePut (TextFile name.now text.now ∷ [])
        (K.files store.old, K.asked store.old, K.faults store.old) (K.files store.new, K.asked store.new, K.faults store.new)) }
    ensures failed { OnErr result (OneFails (TextFile name.now text.now ∷ [])
        (K.files store.old, K.asked store.old, K.faults store.old) (K.files store.new, K.asked store.new, K.faults store.new)) }
{
    store.put(name, text)
}

// The canonical bytes of a profile, which are read again as that profile.
fn spelled(alloc: Global, profile: &Profile) -> Result<Content, Memory>
    requires { IsValid profile.now }
    ensures bytes { IfOk result (λ bytes. bytes ≡ canon profile.now) }
    ensures again { OnOk result (value_of (canon profile.now) ≡ Gives profile.now) }
{
    let bytes = write(alloc, profile)?;
    law_round_trip();
    // (it has no effect, but tells that the bytes are fewer than 2^64)
    let _ = bytes.as_slice().len();
    Ok(bytes)
}

// Puts a profile under a name.
fn put_named<K: Store>(
    alloc: Global,
    name: &str,
    profile: &Profile,
    store: &mut K,
) -> Result<(), SaveError>
    requires { IsValid profile.now }
    ensures put { OnOk result (ArePut (ProfileFile name.now profile.now ∷ [])
        (K.files store.old, K.asked store.old, K.faults store.old) (K.files store.new, K.asked store.new, K.faults store.new)) }
    ensures stopped { IfErr result (SaveStops (ProfileFile name.now profile.now ∷ [])
        (K.files store.old, K.asked store.old, K.faults store.old) (K.files store.new, K.asked store.new, K.faults store.new)) }
{
    let bytes = spelled(alloc, profile)?;
    store.put(name, bytes.as_slice())?;
    Ok(())
}

// The name of the goroutine profile of an epoch.
fn profile_name(alloc: Global, epoch: usize) -> Result<String, Memory>
    ensures { IfOk result (λ name. string_bytes name ≡ definition.profile_name epoch) }
{
    Ok(format!(in alloc; "goroutine.{epoch}.pb")?)
}

// Puts the goroutine profile that the records of an epoch make.
fn put_profile<K: Store>(
    alloc: Global,
    program: &Program,
    file: &str,
    epoch: usize,
    records: &Records,
    store: &mut K,
) -> Result<(), SaveError>
    ensures put { OnOk result (ArePut
        (ProfileFile (definition.profile_name epoch) (goroutine_profile_of program.now file.now records.now) ∷ [])
        (K.files store.old, K.asked store.old, K.faults store.old) (K.files store.new, K.asked store.new, K.faults store.new)) }
    ensures stopped { IfErr result (SaveStops
        (ProfileFile (definition.profile_name epoch) (goroutine_profile_of program.now file.now records.now) ∷ [])
        (K.files store.old, K.asked store.old, K.faults store.old) (K.files store.new, K.asked store.new, K.faults store.new)) }
{
    let name = profile_name(alloc, epoch)?;
    let profile = goroutine_profile(alloc, program, file, records)?;
    put_named(alloc, name.as_str(), &profile, store)
}

// Puts the goroutine profiles of a run, by epoch. Where a put fails no more is put.
fn put_profiles<K: Store>(
    alloc: Global,
    program: &Program,
    file: &str,
    profiles: &Profiles,
    store: &mut K,
) -> Result<(), SaveError>
    ensures put { OnOk result (ArePut (goroutine_files program.now file.now profiles.now)
        (K.files store.old, K.asked store.old, K.faults store.old) (K.files store.new, K.asked store.new, K.faults store.new)) }
    ensures stopped { IfErr result (SaveStops (goroutine_files program.now file.now profiles.now)
        (K.files store.old, K.asked store.old, K.faults store.old) (K.files store.new, K.asked store.new, K.faults store.new)) }
{
    for (at, records) in profiles.as_slice().iter().enumerate() {
        put_profile(alloc, program, file, at + 1, records, store)?;
    }
    Ok(())
}

// Puts the CPU profile of a run.
fn put_cpu<K: Store>(
    alloc: Global,
    program: &Program,
    file: &str,
    settings: &Settings,
    ran: &Ran,
    store: &mut K,
) -> Result<(), SaveError>
    requires range { AreInRange settings.now }
    requires ran { IsRan program.now settings.now ran.now }
    ensures put { OnOk result (ArePut (cpu_file program.now settings.now file.now ran.now.report ∷ [])
        (K.files store.old, K.asked store.old, K.faults store.old) (K.files store.new, K.asked store.new, K.faults store.new)) }
    ensures stopped { IfErr result (SaveStops (cpu_file program.now settings.now file.now ran.now.report ∷ [])
        (K.files store.old, K.asked store.old, K.faults store.old) (K.files store.new, K.asked store.new, K.faults store.new)) }
{
    let records = &ran.report.cpu_records;
    let profile = cpu_profile(alloc, program, file, records, settings.hz, ran.clock)?;
    put_named(alloc, "cpu.pb", &profile, store)
}

// Puts the profile that sums of waits make, which stand in a profile's order.
fn put_waits<K: Store>(
    alloc: Global,
    program: &Program,
    file: &str,
    name: &str,
    sums: &Sums,
    store: &mut K,
) -> Result<(), SaveError>
    ensures put { OnOk result (ArePut (ProfileFile name.now (contention_profile_of program.now file.now sums.now) ∷ [])
        (K.files store.old, K.asked store.old, K.faults store.old) (K.files store.new, K.asked store.new, K.faults store.new)) }
    ensures stopped { IfErr result (SaveStops (ProfileFile name.now (contention_profile_of program.now file.now sums.now) ∷ [])
        (K.files store.old, K.asked store.old, K.faults store.old) (K.files store.new, K.asked store.new, K.faults store.new)) }
{
    let profile = contention_profile(alloc, program, file, sums)?;
    put_named(alloc, name, &profile, store)
}

/// Puts the files of a run: the goroutine profiles, by epoch, then `cpu.pb`, `block.pb` and `mutex.pb`. Where a put fails
/// no more is put.
pub(crate) fn put_files<K: Store>(
    alloc: Global,
    program: &Program,
    file: &str,
    settings: &Settings,
    ran: &Ran,
    store: &mut K,
) -> Result<(), SaveError>
    requires range { AreInRange settings.now }
    requires ran { IsRan program.now settings.now ran.now }
    ensures put { OnOk result (ArePut (files_of program.now settings.now file.now ran.now.report)
        (K.files store.old, K.asked store.old, K.faults store.old) (K.files store.new, K.asked store.new, K.faults store.new)) }
    ensures stopped { IfErr result (SaveStops (files_of program.now settings.now file.now ran.now.report)
        (K.files store.old, K.asked store.old, K.faults store.old) (K.files store.new, K.asked store.new, K.faults store.new)) }
{
    put_profiles(alloc, program, file, &ran.report.goroutine_records, store)?;
    put_cpu(alloc, program, file, settings, ran, store)?;
    put_waits(alloc, program, file, "block.pb", &ran.block, store)?;
    put_waits(alloc, program, file, "mutex.pb", &ran.mutex, store)?;
    Ok(())
}
