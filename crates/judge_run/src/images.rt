//! From an image to where a run starts.

ghost use Rattle.std.specs.Prelude.{◌≡◌, ◌<◌, ◌≤◌, ◌%◌, ℕ, List, IfOk, length, map, replicate, unwrap_or};
ghost use Rattle.std.specs.List.{All};
ghost use Rattle.outside_ports.specs.Front.{HasFront};
ghost use Rattle.hart_step.specs.Cores.{IsSound, core_at_reset_of};
ghost use Rattle.image_text.specs.Image.{image_of};
ghost use Rattle.elf_image.specs.Image.{elf_of};
ghost use Rattle.judge_words.specs.Job.{job_view, IsLawful};
ghost use Rattle.state_text.specs.declared.state.TheConstants.{MOST_HARTS};
ghost use Rattle.state_text.specs.Texts.{state_in};
ghost use Rattle.judge_run.specs.Answer.{core_from, elf_start, image_start, is_elf, is_saved, saved_start, start_in, start_of, text_start};
ghost use Rattle.judge_run.specs.Starts.{CanBegin, IsStartOf, start_view, state_view};
ghost use Rattle.judge_run.specs.Stops.{MeantBy, MeantWhereKnown, CountsStop, MissesStop, IsJobs, WasRead, elf_stop, image_stop, state_stop};

use crate::outcomes::outcome_of;
use crate::start::Start;
use crate::stop::Stop;
use elf_image::{ElfError, read_elf};
use hart_step::Core;
use hart_words::NoMemory;
use image_text::{ImageError, read_image};
use judge_words::{FIRST_PC, Job};
use outside_ports::{Front, ReadError, Shelf, read_front};
use page_image::PageImage;
use state_text::{Platform, State, StateError, read_state};
use std::alloc::Global;
use trace_report::Ruling;

/// Reads the image of a job, a file of this name.
pub fn read_start<H: Shelf>(
    alloc: Global,
    job: &Job,
    name: &str,
    shelf: &mut H,
) -> Result<Start, Stop>
    requires { IsLawful (job_view job.now) }
    ensures known_files { H.known_files shelf.new ≡ H.known_files shelf.old }
    ensures meant { MeantWhereKnown (H.known_files shelf.old) (λ start. start_view start) result
        (λ files. start_of (job_view job.now) (files name.now)) }
    ensures begins { IfOk result CanBegin }
    ensures jobs { IsJobs result }
    ensures faults { CountsStop result (H.faults shelf.old) (H.faults shelf.new) }
    ensures misses { MissesStop result (H.known_files shelf.old)
        (λ files. start_of (job_view job.now) (files name.now))
        (H.misses shelf.old) (H.misses shelf.new) }
{
    match read_front(alloc, shelf, name, job.max_image) {
        Ok(front) => start_in(alloc, job, &front),
        Err(ReadError::ReadFault) => Err(Stop::ReadFault),
        Err(ReadError::NoMemory) => Err(Stop::NoMemory),
    }
}

/// Where a run starts from an image of which the front was read.
fn start_in(alloc: Global, job: &Job, front: &Front) -> Result<Start, Stop>
    requires { IsLawful (job_view job.now) }
    ensures meant { (file : List ℕ) → HasFront file (job_view job.now).max_image front.now
        → MeantBy (λ start. start_view start) result (start_in (job_view job.now) file) }
    ensures begins { IfOk result CanBegin }
    ensures jobs { IsJobs result }
    ensures read { WasRead result }
{
    if front.more {
        let ruling = Ruling::ImageTooLarge {
            most: job.max_image,
        };
        return Err(Stop::Known(outcome_of(job, ruling)));
    }
    let state = match image_state(alloc, job, &front.bytes) {
        Ok(state) => state,
        Err(stop) => return Err(stop),
    };
    match PageImage::build(alloc, &state.pieces, job.map.ram) {
        Ok(image) => Ok(Start {
            image,
            cores: state.cores,
        }),
        Err(_) => Err(Stop::NoMemory),
    }
}

/// The harts and the memory that an image says.
fn image_state(alloc: Global, job: &Job, image: &[u8]) -> Result<State, Stop>
    requires { IsLawful (job_view job.now) }
    ensures meant { MeantBy state_view result (image_start (job_view job.now) image.now) }
    ensures start { IfOk result (IsStartOf job.now.map) }
    ensures jobs { IsJobs result }
    ensures read { WasRead result }
{
    if is_elf(image) {
        elf_state(alloc, job, image)
    } else if is_saved(image) {
        saved_state(alloc, job, image)
    } else {
        text_state(alloc, job, image)
    }
}

/// Whether the first four bytes are those of an ELF file.
fn is_elf(image: &[u8]) -> bool
    ensures { result ≡ is_elf image.now }
{
    matches!(image, [0x7f, b'E', b'L', b'F', ..])
}

/// Whether the first line is that of a saved state.
fn is_saved(image: &[u8]) -> bool
    ensures { result ≡ is_saved image.now }
{
    image.starts_with(b"rvstate 1\n")
}

/// Harts at reset where an ELF file begins, over its segments.
#[tactic(auto, using(crate::proofs::Starts::elf_read, crate::proofs::Starts::elf_refused))]
fn elf_state(alloc: Global, job: &Job, image: &[u8]) -> Result<State, Stop>
    requires { IsLawful (job_view job.now) }
    ensures meant { MeantBy state_view result
        (elf_start (job_view job.now) (elf_of job.now.map.ram image.now)) }
    ensures start { IfOk result (IsStartOf job.now.map) }
    ensures jobs { IsJobs result }
    ensures read { WasRead result }
{
    match read_elf(alloc, image, job.map.ram) {
        Ok((pieces, entry)) => Ok(State {
            cores: cores_at_reset(alloc, job, entry)?,
            pieces,
        }),
        Err(error) => Err(elf_stop(job, error)),
    }
}

/// A saved state, at the first pc that the words give, if any.
#[tactic(auto, using(crate::proofs::Starts::saved_read, crate::proofs::Starts::saved_refused))]
fn saved_state(alloc: Global, job: &Job, image: &[u8]) -> Result<State, Stop>
    requires { IsLawful (job_view job.now) }
    ensures meant { MeantBy state_view result
        (saved_start (job_view job.now)
        (state_in job.now.profile job.now.map job.now.choices job.now.harts image.now)) }
    ensures start { IfOk result (IsStartOf job.now.map) }
    ensures jobs { IsJobs result }
    ensures read { WasRead result }
{
    let platform = Platform {
        profile: job.profile,
        map: job.map,
        choices: job.choices,
    };
    match read_state(alloc, image, &platform, job.harts) {
        Ok(state) => Ok(State {
            cores: cores_from(job, state.cores),
            pieces: state.pieces,
        }),
        Err(error) => Err(state_stop(job, error)),
    }
}

/// Harts at reset at the first pc, over a Verilog text.
#[tactic(auto, using(crate::proofs::Starts::text_read, crate::proofs::Starts::text_refused))]
fn text_state(alloc: Global, job: &Job, image: &[u8]) -> Result<State, Stop>
    requires { IsLawful (job_view job.now) }
    ensures meant { MeantBy state_view result
        (text_start (job_view job.now) (image_of job.now.map.ram image.now)) }
    ensures start { IfOk result (IsStartOf job.now.map) }
    ensures jobs { IsJobs result }
    ensures read { WasRead result }
{
    match read_image(alloc, image, job.map.ram) {
        Ok(pieces) => Ok(State {
            cores: cores_at_reset(alloc, job, FIRST_PC)?,
            pieces,
        }),
        Err(error) => Err(image_stop(job, error)),
    }
}

/// So many harts at reset as the words say, at the first pc: the one that they give, or else this
/// one.
fn cores_at_reset(alloc: Global, job: &Job, pc: u64) -> Result<Vec<Core>, NoMemory>
    requires lawful { IsLawful (job_view job.now) }
    requires even { pc % 2 ≡ 0 }
    ensures cores { IfOk result (λ cores. cores.items ≡ replicate job.now.harts
        (core_at_reset_of job.now.profile (unwrap_or (job_view job.now).pc pc) job.now.map
        job.now.choices)) }
    ensures some { IfOk result (λ cores. 0 < length cores.items) }
    ensures few { IfOk result (λ cores. length cores.items ≤ MOST_HARTS) }
    ensures sound { IfOk result (λ cores. All IsSound cores.items) }
    ensures maps { IfOk result (λ cores. All (λ core. core.map ≡ job.now.map) cores.items) }
{
    let core = core_at_reset(job, pc);
    let mut cores = Vec::new(alloc);
    for _ in 0..job.harts {
        cores.push(core)?;
    }
    Ok(cores)
}

/// A hart at reset at the first pc: the one that the words give, or else this one.
fn core_at_reset(job: &Job, pc: u64) -> Core
    requires lawful { IsLawful (job_view job.now) }
    requires even { pc % 2 ≡ 0 }
    ensures core { result
        ≡ core_at_reset_of job.now.profile (unwrap_or (job_view job.now).pc pc) job.now.map
        job.now.choices }
    ensures map { result.map ≡ job.now.map }
    ensures sound { IsSound result }
{
    let first = match job.pc {
        Some(given) => given,
        None => pc,
    };
    Core::reset_of(&job.profile, first, job.map, job.choices)
}

/// Harts at the first pc that the words give, or else where they stand.
fn cores_from(job: &Job, cores: Vec<Core>) -> Vec<Core>
    requires lawful { IsLawful (job_view job.now) }
    requires sound { All IsSound cores.items }
    ensures cores { result.items ≡ map (core_from (job_view job.now).pc) cores.items }
    ensures sound { All IsSound result.items }
{
    let mut cores = cores;
    for number in 0..cores.len() {
        cores[number] = core_from(job, cores[number]);
    }
    cores
}

/// A hart at the first pc that the words give, or else where it stands.
fn core_from(job: &Job, core: Core) -> Core
    requires lawful { IsLawful (job_view job.now) }
    requires sound { IsSound core }
    ensures core { result ≡ core_from (job_view job.now).pc core }
    ensures sound { IsSound result }
{
    match job.pc {
        None => core,
        Some(pc) => {
            let mut core = core;
            core.pc = pc;
            core
        }
    }
}

/// Why an image that cannot be read stops the run.
fn image_stop(job: &Job, error: ImageError) -> Stop
    ensures { result ≡ image_stop (job_view job.now) error }
{
    match error {
        ImageError::Fault(fault) => Stop::Known(outcome_of(job, Ruling::ImageFault(fault))),
        ImageError::NoMemory => Stop::NoMemory,
    }
}

/// The same of an ELF file.
fn elf_stop(job: &Job, error: ElfError) -> Stop
    ensures { result ≡ elf_stop (job_view job.now) error }
{
    match error {
        ElfError::Fault(fault) => Stop::Known(outcome_of(job, Ruling::ElfFault(fault))),
        ElfError::NoMemory => Stop::NoMemory,
    }
}

/// The same of a saved state.
fn state_stop(job: &Job, error: StateError) -> Stop
    ensures { result ≡ state_stop (job_view job.now) error }
{
    match error {
        StateError::Fault(fault) => Stop::Known(outcome_of(job, Ruling::StateFault(fault))),
        StateError::NoMemory => Stop::NoMemory,
    }
}
