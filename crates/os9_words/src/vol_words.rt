//! The words of `vol`, the tools for the images of disks.

ghost use Rattle.std.specs.Prelude.{◌≡◌, ◌≢◌, ◌+◌, ◌≤◌, nat_eq, codes, IfOk, IfSome, Some, None, drop, length, map, option_and_then, slice_get, string_bytes, take, true};
ghost use Rattle.time_rules.specs.CivilTime.{is_time_packet};
ghost use Rattle.rbf_model.specs.Geometry.{is_cluster_size as is_cluster_size_model};
ghost use Rattle.option_reader.specs.Given.{value_of, words_give};
ghost use Rattle.os9_words.specs.Command.{OnRefused};
ghost use Rattle.os9_words.specs.Vol.{cluster_of as cluster_of_model, format_with, rest_count as rest_count_model, sectors_in, tool_with};
ghost use Rattle.os9_words.specs.Vol.{verb_of as verb_of_model, vol_of as vol_of_model, vol_options, IsVol};

use crate::command::{WordsFault, read_options, time_of};
use crate::word::{Word, Words};
use option_reader::GivenWords;
use os9_base::registers::TimePacket;
use std::alloc::{AllocError, Global};
use text_values::read_number;

/// What `vol` does with an image.
#[derive(Clone, Copy, Debug, PartialEq, Eq)]
pub enum Verb {
    /// `format`: makes the image of a disk without files.
    Format,
    /// `put`: makes a file on the disk from the bytes of a host's file.
    Put,
    /// `get`: makes a host's file from the bytes of a file on the disk.
    Get,
    /// `mkdir`: makes a directory.
    Mkdir,
    /// `delete`: deletes a file.
    Delete,
    /// `dir`: lists a directory.
    Dir,
    /// `repair`: frees the lost clusters.
    Repair,
}

/// The words of `vol`.
#[derive(Debug, Drop)]
pub struct VolWords {
    /// The verb.
    pub verb: Verb,
    /// The file with the image.
    pub image: Word,
    /// PATH and FILE, in this order, if the verb takes them.
    pub rest: Words,
    /// For `format` the sectors of the disk, from 16 to 524,280; otherwise 0.
    pub sectors: u32,
    /// For `format` the sectors of a cluster, a power of two up to 64; otherwise 1.
    pub cluster: u16,
    /// The date and time of the command.
    pub start: TimePacket,
}

/// The least number of sectors that `format` takes.
const FEWEST_SECTORS: u32 = 16;

/// The greatest number of sectors that `format` takes.
const MOST_SECTORS: u32 = 524_280;

/// The greatest number of sectors in a cluster that `--cluster` takes.
const MOST_CLUSTER: u32 = 64;

/// The sectors of a cluster without `--cluster`.
const DEFAULT_CLUSTER: u16 = 1;

// Reads the words after `vol`.
pub(crate) fn read_vol(alloc: Global, words: &[String]) -> Result<VolWords, WordsFault>
    ensures words { IfOk result (λ read. option_and_then vol_of_model
        (words_give vol_options (map string_bytes words.now)) ≡ Some read) }
    ensures complete { IfOk result IsVol }
    ensures refused { OnRefused result (option_and_then vol_of_model
        (words_give vol_options (map string_bytes words.now)) ≡ None) }
{
    let names = ["time", "cluster"];
    let given = read_options(alloc, &names, words)?;
    vol_of(alloc, &given)
}

// `vol VERB IMAGE ..`, optionally with `--time T`.
fn vol_of(alloc: Global, given: &GivenWords<'_>) -> Result<VolWords, WordsFault>
    ensures words { IfOk result (λ read. vol_of_model given.now ≡ Some read) }
    ensures complete { IfOk result IsVol }
    ensures refused { OnRefused result (vol_of_model given.now ≡ None) }
{
    let verb = verb_in(given);
    let image = given.argument(1);
    let start = time_of(given);
    let (Some(verb), Some(image), Some(start)) = (verb, image, start) else {
        return Err(WordsFault::Refused);
    };
    match verb {
        Verb::Format => format_of(alloc, given, image, start),
        _ => tool_of(alloc, given, verb, image, start),
    }
}

// `vol format IMAGE SECTORS`, optionally with `--cluster K`.
fn format_of(
    alloc: Global,
    given: &GivenWords<'_>,
    image: &str,
    start: TimePacket,
) -> Result<VolWords, WordsFault>
    requires { is_time_packet start ≡ true }
    ensures words { IfOk result (λ read. format_with image.now start
        (sectors_in given.now.arguments) (cluster_of_model given.now) ≡ Some read) }
    ensures complete { IfOk result IsVol }
    ensures refused { OnRefused result (format_with image.now start
        (sectors_in given.now.arguments) (cluster_of_model given.now) ≡ None) }
{
    let sectors = sectors_of(given);
    let cluster = cluster_of(given);
    let (Some(sectors), Some(cluster)) = (sectors, cluster) else {
        return Err(WordsFault::Refused);
    };
    match Word::copy_of(alloc, image) {
        Ok(image) => Ok(VolWords {
            verb: Verb::Format,
            image,
            rest: Words::of(Vec::new(alloc)),
            sectors,
            cluster,
            start,
        }),
        Err(_) => Err(WordsFault::OutOfMemory),
    }
}

// Another verb, with the words that it takes after IMAGE.
fn tool_of(
    alloc: Global,
    given: &GivenWords<'_>,
    verb: Verb,
    image: &str,
    start: TimePacket,
) -> Result<VolWords, WordsFault>
    requires other { verb ≢ Verb.Format }
    requires time { is_time_packet start ≡ true }
    ensures words { IfOk result (λ read. tool_with verb image.now start given.now.arguments
        (value_of given.now (codes "cluster")) ≡ Some read) }
    ensures complete { IfOk result IsVol }
    ensures refused { OnRefused result (tool_with verb image.now start given.now.arguments
        (value_of given.now (codes "cluster")) ≡ None) }
{
    let count = rest_count(verb);
    if given.value("cluster").is_some() || !has_arguments(given, count + 2) {
        return Err(WordsFault::Refused);
    }
    match tool_words(alloc, given, verb, image, start) {
        Ok(words) => Ok(words),
        Err(_) => Err(WordsFault::OutOfMemory),
    }
}

fn tool_words(
    alloc: Global,
    given: &GivenWords<'_>,
    verb: Verb,
    image: &str,
    start: TimePacket,
) -> Result<VolWords, AllocError>
    requires { length given.now.arguments ≡ rest_count_model verb + 2 }
    ensures { IfOk result (λ words. words ≡ record {
      verb = verb;
      image = image.now;
      rest = drop 2 given.now.arguments;
      sectors = 0;
      cluster = 1;
      start = start;
    }) }
{
    Ok(VolWords {
        verb,
        image: Word::copy_of(alloc, image)?,
        rest: rest_words(alloc, given, rest_count(verb) + 2)?,
        sectors: 0,
        cluster: DEFAULT_CLUSTER,
        start,
    })
}

// The arguments after the verb and IMAGE, up to `count` arguments in all.
fn rest_words(alloc: Global, given: &GivenWords<'_>, count: usize) -> Result<Words, AllocError>
    requires least { 2 ≤ count }
    requires most { count ≤ 4 }
    ensures { IfOk result (λ words. words ≡ drop 2 (take count given.now.arguments)) }
{
    let mut words = Vec::new(alloc);
    for place in 2..count {
        match given.argument(place) {
            Some(argument) => words.push(Word::copy_of(alloc, argument)?)?,
            None => break,
        }
    }
    Ok(Words::of(words))
}

// The verb, which is the first argument.
fn verb_in(given: &GivenWords<'_>) -> Option<Verb>
    ensures { result ≡ option_and_then verb_of_model (slice_get given.now.arguments 0) }
{
    verb_of(given.argument(0)?)
}

// The verb that a word spells.
fn verb_of(word: &str) -> Option<Verb>
    ensures { result ≡ verb_of_model word.now }
{
    match word {
        "format" => Some(Verb::Format),
        "put" => Some(Verb::Put),
        "get" => Some(Verb::Get),
        "mkdir" => Some(Verb::Mkdir),
        "delete" => Some(Verb::Delete),
        "dir" => Some(Verb::Dir),
        "repair" => Some(Verb::Repair),
        _ => None,
    }
}

// The number of words that a verb takes after IMAGE, without SECTORS.
fn rest_count(verb: Verb) -> usize
    ensures { result ≡ rest_count_model verb }
{
    match verb {
        Verb::Put | Verb::Get => 2,
        Verb::Mkdir | Verb::Delete | Verb::Dir => 1,
        Verb::Format | Verb::Repair => 0,
    }
}

// Are exactly `count` arguments given?
fn has_arguments(given: &GivenWords<'_>, count: usize) -> bool
    requires some { 1 ≤ count }
    requires few { count ≤ 4 }
    ensures { result ≡ nat_eq (length given.now.arguments) count }
{
    given.argument(count - 1).is_some() && given.argument(count).is_none()
}

// SECTORS, the only argument after IMAGE.
fn sectors_of(given: &GivenWords<'_>) -> Option<u32>
    ensures sectors { result ≡ sectors_in given.now.arguments }
    ensures least { IfSome result (λ sectors. 16 ≤ sectors) }
    ensures most { IfSome result (λ sectors. sectors ≤ 524280) }
{
    if !has_arguments(given, 3) {
        return None;
    }
    let number = given.argument(2)?;
    read_number(number.as_bytes(), FEWEST_SECTORS, MOST_SECTORS)
}

// The sectors of a cluster: 1 without `--cluster`.
fn cluster_of(given: &GivenWords<'_>) -> Option<u16>
    ensures cluster { result ≡ cluster_of_model given.now }
    ensures size { IfSome result (λ cluster. is_cluster_size_model cluster ≡ true) }
{
    let Some(number) = given.value("cluster") else {
        return Some(DEFAULT_CLUSTER);
    };
    let cluster = read_number(number.as_bytes(), 1, MOST_CLUSTER)?;
    if is_cluster_size(cluster) {
        Some(cluster as u16)
    } else {
        None
    }
}

// Is this a valid number of sectors of a cluster?
fn is_cluster_size(sectors: u32) -> bool
    ensures { result ≡ is_cluster_size_model sectors }
{
    matches!(sectors, 1 | 2 | 4 | 8 | 16 | 32 | 64)
}
