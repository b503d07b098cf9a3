//! Writes the meanings of entries to a sink.

ghost use Rattle.std.specs.Prelude.{◌≡◌, ◌+◌, ◌-◌, ◌^◌, ◌++◌, ◌∷◌, [], min, OnOk, OnErr};
ghost use Rattle.schedule.specs.Tapes.{Begins, Writes};
ghost use Rattle.cli.specs.Names.{name_of};
ghost use Rattle.cli.specs.Report.{IsWritten, list_of, meaning_text, TellsDictionaryEntry};
ghost use Rattle.cli.specs.declared.explain.dictionary_entry.TheConstants.{ENTRIES as all_dictionary_entries};

use crate::explain::dictionary_entry::{DictionaryEntry, ENTRIES};
use crate::explain::meaning::{Meaning, meaning_of};
use schedule::texts::device::write_all;
use schedule::{Failed, Sink};

/// Writes a text.
fn put<W: Sink>(text: &str, w: &mut W) -> Result<(), Failed>
    ensures all { OnOk result ((W.tape w.new).taken ≡ (W.tape w.old).taken ++ text.now) }
    ensures beginning { OnErr result (Begins (W.tape w.old).taken (W.tape w.new).taken text.now) }
    ensures fine { OnOk result ((W.tape w.new).failures ≡ (W.tape w.old).failures) }
    ensures failed { OnErr result ((W.tape w.new).failures ≡ min ((W.tape w.old).failures + 1) (2 ^ 64 - 1)) }
{
    write_all(w, text.as_bytes())
}

/// Writes the name, its two sentences, and the page that defines it.
fn tell<W: Sink>(meaning: &Meaning, w: &mut W) -> Result<(), Failed>
    ensures reports { OnOk result (Writes (W.tape w.old) (W.tape w.new) (meaning_text meaning.now)) }
    ensures beginning { OnErr result (Begins (W.tape w.old).taken (W.tape w.new).taken (meaning_text meaning.now)) }
    ensures failed { OnErr result ((W.tape w.new).failures ≡ min ((W.tape w.old).failures + 1) (2 ^ 64 - 1)) }
{
    put(meaning.name, w)?;
    put(": ", w)?;
    put(meaning.text, w)?;
    put("\nSee ", w)?;
    put(meaning.page, w)?;
    put(".\n", w)
}

/// Writes the meaning of an entry. `Failed`: the sink has failed.
pub fn tell_dictionary_entry<W: Sink>(
    dictionary_entry: DictionaryEntry,
    w: &mut W,
) -> Result<(), Failed>
    ensures { TellsDictionaryEntry dictionary_entry (W.tape w.old) (W.tape w.new) result }
{
    let meaning = meaning_of(dictionary_entry);
    tell(&meaning, w)
}

/// Writes the name of an entry, on a line of its own.
fn tell_name<W: Sink>(dictionary_entry: DictionaryEntry, w: &mut W) -> Result<(), Failed>
    ensures reports { OnOk result (Writes (W.tape w.old) (W.tape w.new) (name_of dictionary_entry ++ 10 ∷ [])) }
    ensures beginning { OnErr result (Begins (W.tape w.old).taken (W.tape w.new).taken (name_of dictionary_entry ++ 10 ∷ [])) }
    ensures failed { OnErr result ((W.tape w.new).failures ≡ min ((W.tape w.old).failures + 1) (2 ^ 64 - 1)) }
{
    let meaning = meaning_of(dictionary_entry);
    put(meaning.name, w)?;
    put("\n", w)
}

/// Writes the name of each of these entries, one on a line.
fn tell_names<W: Sink>(dictionary_entries: &[DictionaryEntry], w: &mut W) -> Result<(), Failed>
    ensures reports { OnOk result (Writes (W.tape w.old) (W.tape w.new) (list_of dictionary_entries.now)) }
    ensures beginning { OnErr result (Begins (W.tape w.old).taken (W.tape w.new).taken (list_of dictionary_entries.now)) }
    ensures failed { OnErr result ((W.tape w.new).failures ≡ min ((W.tape w.old).failures + 1) (2 ^ 64 - 1)) }
{
    for dictionary_entry in dictionary_entries {
        tell_name(*dictionary_entry, w)?;
    }
    Ok(())
}

/// Writes the names of all entries, one on a line. `Failed`: the sink has failed.
pub fn tell_all_names<W: Sink>(w: &mut W) -> Result<(), Failed>
    ensures { IsWritten (W.tape w.old) (W.tape w.new) (list_of all_dictionary_entries) result }
{
    tell_names(&ENTRIES, w)
}
