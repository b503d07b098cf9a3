//! The declarations of shared words.

ghost use Rattle.std.specs.Prelude.{◌≡◌, ◌||◌, is_some, Some, MatchResult, OnOk, IfErr, IsAscii};
ghost use Rattle.std.specs.Option.{option_map};
ghost use Rattle.algorithms.specs.declared.fault.ReadFault.TheVariants.{OutOfMemory as NoMemory};
ghost use Rattle.algorithm_texts.specs.Parts.{term_of};
ghost use Rattle.algorithm_texts.specs.Operands.{RefusesAs};
ghost use Rattle.algorithm_texts.specs.Drafts.{draft_view, extent_of, start_term};
ghost use Rattle.algorithm_texts.specs.LineDrafts.{Drafts, scope_in, with_names};
ghost use Rattle.algorithm_texts.specs.LineFaults.{limit_fault, bound_and_start_fault, word_values_fault, shared_fault};
ghost use Rattle.algorithm_texts.specs.TextDrafts.{is_array, read_limit, read_bound, read_bound_and_start, read_word_values, with_start, with_size, with_declaration, read_declared_words, read_shared};

use crate::constants::is_bound;
use crate::extents::{has_own_size, is_array};
use crate::first_values::split_bound;
use crate::homes::split_home;
use crate::lines::Draft;
use crate::names::undeclared_name;
use crate::operands::form_fault;
use crate::parts::{after, after_word, split_value};
use crate::tokens::Token;
use algorithms::algorithm::{Declaration, Extent};
use algorithms::expression::Expression;
use algorithms::fault::ReadFault;
use std::alloc::Global;

/// The most declarations of shared words.
const MOST_DECLARATIONS: usize = 64;

/// Whether there is a first value, or values were said before.
fn or_some(start: &Option<Expression>, said: bool) -> bool
    ensures { result ≡ is_some (start_term start.now) || said }
{
    match start {
        None => said,
        Some(_) => true,
    }
}

impl Draft {
    /// A bound after `up to`, up to the end of the tokens.
    fn limit(&mut self, alloc: Global, tokens: &[Token]) -> Result<Expression, ReadFault>
        ensures limit { MatchResult result
            (λ v. read_limit (scope_in (draft_view self.old)) (draft_view self.old).names tokens.now
            ≡ Some (Some (term_of v), (draft_view self.new).names))
            (λ fault. RefusesAs fault (read_limit (scope_in (draft_view self.old)) (draft_view self.old).names tokens.now)
            (limit_fault (scope_in (draft_view self.old)) (draft_view self.old).names tokens.now)) }
        ensures kept { draft_view self.new ≡ with_names (draft_view self.new).names (draft_view self.old) }
    {
        let rest = after_word(after_word(tokens, b"up")?, b"to")?;
        let (part, rest) = split_value(rest);
        let known = self.algorithm.names.len();
        let value = self.value(alloc, part)?;
        if rest.is_empty() && (is_bound(&value) && self.algorithm.names.len() == known) {
            Ok(value)
        } else {
            Err(form_fault(value))
        }
    }

    /// A bound, where there is one, up to the end of the tokens.
    fn bound(&mut self, alloc: Global, tokens: &[Token]) -> Result<Option<Expression>, ReadFault>
        ensures bound { MatchResult result
            (λ b. read_bound (scope_in (draft_view self.old)) (draft_view self.old).names tokens.now
            ≡ Some (option_map (λ v. term_of v) b, (draft_view self.new).names))
            (λ fault. RefusesAs fault (read_bound (scope_in (draft_view self.old)) (draft_view self.old).names tokens.now)
            (limit_fault (scope_in (draft_view self.old)) (draft_view self.old).names tokens.now)) }
        ensures kept { draft_view self.new ≡ with_names (draft_view self.new).names (draft_view self.old) }
    {
        if tokens.is_empty() {
            Ok(None)
        } else {
            Ok(Some(self.limit(alloc, tokens)?))
        }
    }

    /// The bound and the first value of a word, where they are there, up to the end of the tokens.
    fn bound_and_start(
        &mut self,
        alloc: Global,
        each: bool,
        tokens: &[Token],
    ) -> Result<(Option<Expression>, Option<Expression>), ReadFault>
        ensures values { MatchResult result
            (λ v. read_bound_and_start (scope_in (draft_view self.old)) each (draft_view self.old).names tokens.now
            ≡ Some (option_map (λ e. term_of e) v.0, start_term v.1, (draft_view self.new).names))
            (λ fault. RefusesAs fault
            (read_bound_and_start (scope_in (draft_view self.old)) each (draft_view self.old).names tokens.now)
            (bound_and_start_fault (scope_in (draft_view self.old)) each (draft_view self.old).names tokens.now)) }
        ensures kept { draft_view self.new ≡ with_names (draft_view self.new).names (draft_view self.old) }
    {
        let (limited, rest) = split_bound(tokens);
        let bound = self.bound(alloc, limited)?;
        match self.start(alloc, each, rest) {
            Ok(start) => Ok((bound, start)),
            Err(fault) => {
                drop(bound);
                Err(fault)
            }
        }
    }

    /// The bound, the first value and the home of a word, where they are there, up to the end of the line.
    fn word_values(
        &mut self,
        alloc: Global,
        each: bool,
        tokens: &[Token],
    ) -> Result<(Option<Expression>, Option<Expression>, Option<Expression>), ReadFault>
        ensures values { MatchResult result
            (λ v. read_word_values (scope_in (draft_view self.old)) each (draft_view self.old).names tokens.now
            ≡ Some (option_map (λ e. term_of e) v.0, start_term v.1, option_map (λ e. term_of e) v.2, (draft_view self.new).names))
            (λ fault. RefusesAs fault
            (read_word_values (scope_in (draft_view self.old)) each (draft_view self.old).names tokens.now)
            (word_values_fault (scope_in (draft_view self.old)) each (draft_view self.old).names tokens.now)) }
        ensures kept { draft_view self.new ≡ with_names (draft_view self.new).names (draft_view self.old) }
    {
        let (values, rest) = split_home(tokens);
        let (bound, start) = self.bound_and_start(alloc, each, values)?;
        match self.home(alloc, each, rest) {
            Ok(home) => Ok((bound, start, home)),
            Err(fault) => {
                drop((bound, start));
                Err(fault)
            }
        }
    }

    /// Adds the first value of the words of one more declaration, or that none is said.
    fn add_start(&mut self, start: Option<Expression>) -> Result<(), ReadFault>
        ensures ok { OnOk result (draft_view self.new ≡ with_start (start_term start) (draft_view self.old)) }
        ensures err { IfErr result (λ fault. fault ≡ NoMemory) }
    {
        self.says_values = or_some(&start, self.says_values);
        self.starts.push(start)?;
        Ok(())
    }

    /// Notes whether there is an array of another size than `procs`.
    fn note_size(&mut self, extent: &Extent)
        ensures { draft_view self.new ≡ with_size (extent_of extent.now) (draft_view self.old) }
    {
        self.says_values = has_own_size(extent) || self.says_values;
    }

    /// Adds a declaration.
    fn declare(
        &mut self,
        alloc: Global,
        name: &[u8],
        extent: Extent,
        bound: Option<Expression>,
        home: Option<Expression>,
    ) -> Result<(), ReadFault>
        requires { IsAscii name.now }
        ensures ok { OnOk result (draft_view self.new ≡ with_declaration name.now (extent_of extent)
            (option_map (λ v. term_of v) bound) (option_map (λ v. term_of v) home) (draft_view self.old)) }
        ensures err { IfErr result (λ fault. fault ≡ NoMemory) }
    {
        let name = String::from_utf8_lossy(alloc, name)?;
        self.algorithm.declarations.push(Declaration {
            name,
            extent,
            bound,
            home,
        })?;
        Ok(())
    }

    /// Adds the words of a name, with a bound, a first value and a home where they are there.
    fn declare_words(
        &mut self,
        alloc: Global,
        name: &[u8],
        extent: Extent,
        tokens: &[Token],
    ) -> Result<(), ReadFault>
        requires { IsAscii name.now }
        ensures { Drafts (draft_view self.new) result (read_declared_words (draft_view self.old) name.now (extent_of extent) tokens.now)
            (word_values_fault (scope_in (draft_view self.old)) (is_array (extent_of extent)) (draft_view self.old).names tokens.now) }
    {
        let (bound, start, home) = self.word_values(alloc, is_array(&extent), tokens)?;
        self.note_size(&extent);
        self.declare(alloc, name, extent, bound, home)?;
        self.add_start(start)
    }

    /// Reads `shared NAME`, with its sizes, a bound, a first value and a home where they are there.
    pub fn take_shared(&mut self, alloc: Global, tokens: &[Token]) -> Result<(), ReadFault>
        ensures { Drafts (draft_view self.new) result (read_shared (draft_view self.old) tokens.now)
            (shared_fault (draft_view self.old) tokens.now) }
    {
        let name = undeclared_name(&self.algorithm, tokens.first())?;
        if self.algorithm.declarations.len() >= MOST_DECLARATIONS {
            return Err(ReadFault::TooBig);
        }
        let (extent, rest) = self.extent(alloc, after(tokens, 1))?;
        self.declare_words(alloc, name.as_bytes(), extent, rest)
    }
}
