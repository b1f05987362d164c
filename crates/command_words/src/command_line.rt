//! The words of a command line, as the system gives them.

ghost use Rattle.std.specs.Prelude.{◌≡◌, ◌⊎◌, IfOk, IfErr, map, string_bytes};
ghost use Rattle.cube_core.specs.declared.fault.Fault.TheVariants.{Usage, WantOfMemory};
ghost use Rattle.command_words.specs.Settings.{AreInRange};
ghost use Rattle.command_words.specs.Words.{texts, Ask, AskForNone};

use crate::settings::Settings;
use crate::words::settings;
use cube_core::fault::Fault;
use std::alloc::{AllocError, Global};

/// Returns the settings that the words after the program's name ask for, as `settings` does.
///
/// Returns `WantOfMemory` also if a list of the words can't be allocated.
pub fn settings_of(alloc: Global, words: &[String]) -> Result<Settings, Fault>
    ensures ranges { IfOk result AreInRange }
    ensures asked { IfOk result (Ask (map string_bytes words.now)) }
    ensures refused { IfErr result (λ e. ((e ≡ Usage) × AskForNone (map string_bytes words.now)) ⊎ (e ≡ WantOfMemory)) }
{
    settings(alloc, texts_of(alloc, words)?.as_slice())
}

/// Returns the texts of words.
fn texts_of<'a>(alloc: Global, words: &'a [String]) -> Result<Vec<&'a str>, AllocError>
    ensures { IfOk result (λ v. texts v.items ≡ map string_bytes words.now) }
{
    let mut texts = Vec::new(alloc);
    for word in words {
        texts.push(word.as_str())?;
    }
    Ok(texts)
}
