//! A job, and the words that ask for it.

ghost use Rattle.std.specs.Prelude.{◌≡◌, IfOk, IfSome, map, option_map, string_bytes};
ghost use Rattle.clap.specs.Words.{found_of, rows_of};
ghost use Rattle.judge_words.specs.Job.{GivesJob, IsLawful, IsLawfulSharing, files_job, given_choices, given_map, given_profile, job_of, job_view, line_product, made_job, rows_choices, sharing_of};
ghost use Rattle.judge_words.specs.Settings.{settings_view};
ghost use Rattle.judge_words.specs.declared.job.WordError.TheVariants.{NoMemory};

use crate::command_line::{command_line, given_to, is_given, parse, text_of};
use crate::cores::{Core, read_core, said};
use crate::lists::{read_io, read_trap_values};
use crate::profiles::{read_csrs, read_entry_bits, read_entry_count, read_lines};
use crate::values::{
    MOST_IMAGE_BYTES, MOST_TRACE_BYTES, RAM_BASE, RAM_SIZE, read_bits, read_block_size,
    read_device_faults, read_harts, read_image_limit, read_insn_bits, read_made_number,
    read_made_rows, read_marks, read_misaligned, read_pc, read_segment, read_span,
    read_trace_limit, read_window, read_workers,
};
use clap::ArgMatches;
use csr_file::CsrProfile;
use hart_words::{Choices, Map, Span};
use std::alloc::{AllocError, Global};
use thiserror::Error;

/// What a job does, by the command that its words name.
#[derive(Debug, Drop)]
pub enum Command<N> {
    /// Judges a trace over an image, files of these names.
    Judge {
        image: N,
        trace: N,
        product: Product,
    },
    /// Judges what is made: the image and the trace of this number, the trace with so many rows.
    Make {
        number: u32,
        rows: u32,
    },
}

/// What is written of a trace.
#[derive(Clone, Copy, Debug, PartialEq, Eq)]
pub enum Product {
    /// The line that says what it comes to.
    Line,
    /// The line, and where the trace differs who wrote what the differing row read.
    Origins,
    /// The text of the state after the last row where the trace agrees, and else the line.
    State,
}

/// How the work of a job is shared out, which changes no answer.
#[derive(Clone, Copy, Debug)]
pub struct Sharing {
    /// How many workers judge segments, from 1 to 64.
    pub workers: u32,
    /// The most lines of a segment, from 1 to 2^20.
    pub segment: usize,
    /// The most segments of a window, which is what is held of a trace at once, from 1 to 2^10.
    pub window: usize,
}

/// What the judge is asked to do: the command, the address of the first instruction, the ranges of
/// RAM and of devices, how many harts there are, how many bytes either text may have, the choices
/// of the implementation, its control and status registers, and how the work is to be shared out.
#[derive(Debug, Drop)]
pub struct Job {
    pub command: Command<String>,
    /// The address of the first instruction, even, where one is given.
    pub pc: Option<u64>,
    pub map: Map,
    /// How many harts there are, from 1 to 8.
    pub harts: u32,
    /// The most bytes that the image's text may have, from 1 to 2^30.
    pub max_image: u64,
    /// The most bytes that the trace may have, from 1 to 2^40.
    pub max_trace: u64,
    pub choices: Choices,
    pub profile: CsrProfile,
    pub sharing: Sharing,
}

/// Why there is no job.
#[derive(Clone, Copy, Debug, PartialEq, Eq, Error)]
pub enum WordError {
    #[error("the words are no job")]
    NotAJob,
    /// Memory was refused.
    #[error("out of memory")]
    NoMemory,
}

impl From<AllocError> for WordError {
    ghost from_gives = { λ _ e. e ≡ NoMemory };

    fn from(_e: AllocError) -> WordError {
        WordError::NoMemory
    }
}

/// The job that the words of a command line ask for, the program's name first:
///
/// `rvjudge judge IMAGE TRACE [--pc A] [--ram B:S] [--io B:S,..] [--harts H] [--max-image M]
/// [--max-trace M] [--misaligned trap|done] [--mtval value|zero|zero:C,..] [--ad fault|set]
/// [--reserve R] [--bits on|off] [--insn full|length] [--io-faults none|row]
/// [--csr NAME=VALUE,..] [--pmp 0|8|16] [--pmp-bits L] [--lines MASK] [--profile CORE]
/// [--workers N] [--segment K] [--window W] [--origin]`
///
/// `rvjudge state` with the same words but for `--origin`, and
///
/// `rvjudge make NUMBER ROWS [--workers N] [--segment K] [--window W]`
///
/// `state` gives the state after the last row where the trace agrees, in place of a line. With
/// `--origin`, which has no value, `judge` also gives, where the trace differs, who wrote what the
/// differing row read. Each option stands at most once, as `--name value` or `--name=value`, and
/// `--origin` alone. Numbers are decimal, or hexadecimal after `0x`. A is even; B and S are
/// multiples of 4,096, S at least 4,096 and B + S at most 2^56, of `--io` there are one to eight,
/// and no two ranges have a byte in common; H is from 1 to 8; the M of the image is from 1 to 2^30,
/// that of the trace to 2^40, R a power of two from 8 to 4,096, N from 1 to 64, K from 1 to 2^20,
/// and W from 1 to 2^10. NUMBER is below 2^32, ROWS at most 2^18.
///
/// The choices are those of the implementation that is judged: what misaligned loads and stores do
/// (`--misaligned`), what traps put into mtval and stval (`--mtval`, 0 for the causes C, each
/// once), what becomes of an access whose page lacks A or D (`--ad`), the bytes of the block that
/// LR reserves (`--reserve`), whether Zba, Zbb and Zbs are there (`--bits`), what rows show of
/// instructions of 16 bits (`--insn`), and whether devices may refuse accesses (`--io-faults`). The
/// profile is what its control and status registers are (`--csr`, each named once, as
/// `specs/Profiles.antt` has them), how many entries of protection there are (`--pmp`) with how
/// many bits, L from 10 to 54 (`--pmp-bits`), and which bits of mip are lines (`--lines`). CORE
/// stands for what is known of a core, as `specs/Cores.antt` has it, where a word of these is left
/// out. Words are taken as they are written here.
///
/// Left out, A is not given, and the hart begins where the image says, or else at `FIRST_PC`; the
/// B:S of RAM is 0x80000000:0x8000000, H is 1, either M is the most that it may be, N is 4, K is
/// 4,096, and W is 64; the choices are `trap`, `value`, `fault`, 64, `off`, `full` and `none`, and
/// the profile is the plain one; without `--io` there are no devices. So it is with `make` too. All
/// other words are no job, those that ask for help among them.
#[tactic(auto, unfolding(crate::specs::Job::job_of))]
pub fn read_words(alloc: Global, words: &Vec<String>) -> Result<Job, WordError>
    ensures job { GivesJob (job_of (map string_bytes words.now.items)) result }
    ensures lawful { IfOk result (λ job. IsLawful (job_view job)) }
{
    let matches = parse(command_line(alloc)?, words.as_slice())?;
    match given_to(&matches, "judge") {
        Some(given) => files_job(alloc, line_product(given), given),
        None => match given_to(&matches, "state") {
            Some(given) => files_job(alloc, Product::State, given),
            None => match given_to(&matches, "make") {
                Some(given) => made_job(given).ok_or(WordError::NotAJob),
                None => Err(WordError::NotAJob),
            },
        },
    }
}

/// What `judge` writes: with `--origin` who wrote what a differing row read, after the line.
fn line_product(given: &ArgMatches<'_>) -> Product
    ensures { result ≡ line_product (rows_of (found_of given.now)) }
{
    if is_given(given, "origin") {
        Product::Origins
    } else {
        Product::Line
    }
}

/// The job over files that is given to a command.
fn files_job(alloc: Global, product: Product, given: &ArgMatches<'_>) -> Result<Job, WordError>
    ensures job { GivesJob (files_job product (rows_of (found_of given.now))) result }
    ensures lawful { IfOk result (λ job. IsLawful (job_view job)) }
{
    match settings_from(product, given) {
        None => Err(WordError::NotAJob),
        Some(settings) => Ok(Job {
            command: Command::Judge {
                image: String::from_str(alloc, settings.image)?,
                trace: String::from_str(alloc, settings.trace)?,
                product,
            },
            pc: settings.pc,
            map: settings.map,
            harts: settings.harts,
            max_image: settings.max_image,
            max_trace: settings.max_trace,
            choices: settings.choices,
            profile: settings.profile,
            sharing: settings.sharing,
        }),
    }
}

/// A job over files whose names are still those of the words.
#[derive(Clone, Copy, Debug)]
struct Settings<'a> {
    image: &'a str,
    trace: &'a str,
    pc: Option<u64>,
    map: Map,
    harts: u32,
    max_image: u64,
    max_trace: u64,
    choices: Choices,
    profile: CsrProfile,
    sharing: Sharing,
}

/// The settings that are given, where each can be read. The product is that of the job which is
/// meant.
#[tactic(auto, unfolding(crate::specs::Job::files_job))]
fn settings_from<'a>(product: Product, given: &ArgMatches<'a>) -> Option<Settings<'a>>
    ensures job { option_map (settings_view product) result
        ≡ files_job product (rows_of (found_of given.now)) }
    ensures lawful { IfSome result (λ settings. IsLawful (settings_view product settings)) }
{
    let core = read_core(text_of(given, "profile"))?;
    Some(Settings {
        image: text_of(given, "image")?,
        trace: text_of(given, "trace")?,
        pc: read_pc(text_of(given, "pc"))?,
        map: given_map(given)?,
        harts: read_harts(text_of(given, "harts")?)?,
        max_image: read_image_limit(text_of(given, "max-image")?)?,
        max_trace: read_trace_limit(text_of(given, "max-trace")?)?,
        choices: rows_choices(core, given)?,
        profile: given_profile(core, given)?,
        sharing: sharing_of(given)?,
    })
}

/// The job that is given to the command `make`.
#[tactic(auto, unfolding(crate::specs::Job::made_job))]
fn made_job(given: &ArgMatches<'_>) -> Option<Job>
    ensures job { option_map job_view result ≡ made_job (rows_of (found_of given.now)) }
    ensures lawful { IfSome result (λ job. IsLawful (job_view job)) }
{
    let map = Map::new(Span::new(RAM_BASE, RAM_SIZE)?, None)?;
    Some(Job {
        command: Command::Make {
            number: read_made_number(text_of(given, "number")?)?,
            rows: read_made_rows(text_of(given, "rows")?)?,
        },
        pc: None,
        map,
        harts: 1,
        max_image: MOST_IMAGE_BYTES,
        max_trace: MOST_TRACE_BYTES,
        choices: Choices::plain(),
        profile: CsrProfile::plain(),
        sharing: sharing_of(given)?,
    })
}

/// RAM and the ranges of devices.
#[tactic(auto, unfolding(crate::specs::Job::given_map))]
fn given_map(given: &ArgMatches<'_>) -> Option<Map>
    ensures { result ≡ given_map (rows_of (found_of given.now)) }
{
    Map::with_devices(
        read_span(text_of(given, "ram")?)?,
        read_io(text_of(given, "io"))?,
    )
}

/// The choices of the implementation, with what rows show of instructions, and say of devices.
#[tactic(auto, unfolding(crate::specs::Job::rows_choices))]
fn rows_choices(core: Core, given: &ArgMatches<'_>) -> Option<Choices>
    ensures { result ≡ rows_choices core (rows_of (found_of given.now)) }
{
    let insn_bits = read_insn_bits(said(given, core, "insn")?)?;
    let device_faults = read_device_faults(said(given, core, "io-faults")?)?;
    Some(given_choices(core, given)?.with_rows(insn_bits, device_faults))
}

/// The choices of the implementation alone.
#[tactic(auto, unfolding(crate::specs::Job::given_choices))]
fn given_choices(core: Core, given: &ArgMatches<'_>) -> Option<Choices>
    ensures { result ≡ given_choices core (rows_of (found_of given.now)) }
{
    Choices::new(
        read_misaligned(said(given, core, "misaligned")?)?,
        read_trap_values(said(given, core, "mtval")?)?,
        read_marks(said(given, core, "ad")?)?,
        read_block_size(said(given, core, "reserve")?)?,
        read_bits(said(given, core, "bits")?)?,
    )
}

/// The choices of the implementation for its control and status registers.
#[tactic(auto, unfolding(crate::specs::Job::given_profile))]
fn given_profile(core: Core, given: &ArgMatches<'_>) -> Option<CsrProfile>
    ensures { result ≡ given_profile core (rows_of (found_of given.now)) }
{
    let mut profile = read_csrs(said(given, core, "csr"))?;
    profile.entry_count = read_entry_count(said(given, core, "pmp")?)?;
    profile.entry_bits = read_entry_bits(said(given, core, "pmp-bits")?)?;
    profile.lines = read_lines(said(given, core, "lines")?)?;
    Some(profile)
}

/// How the work is to be shared out.
#[tactic(auto, unfolding(crate::specs::Job::sharing_of))]
fn sharing_of(given: &ArgMatches<'_>) -> Option<Sharing>
    ensures value { result ≡ sharing_of (rows_of (found_of given.now)) }
    ensures lawful { IfSome result IsLawfulSharing }
{
    Some(Sharing {
        workers: read_workers(text_of(given, "workers")?)?,
        segment: read_segment(text_of(given, "segment")?)?,
        window: read_window(text_of(given, "window")?)?,
    })
}
