//! Never claims: conditions on shared words, places and phases that a text says never hold.

ghost use Rattle.std.specs.Prelude.{◌≡◌, ◌⊎◌, ◌≤◌, ◌<◌, ◌∷◌, ◌++◌, [], drop, length, map, Some, None, Ok, MatchResult, OnOk, IfOk, IfErr, bytes_eq, position};
ghost use Rattle.std.specs.Option.{option_copied};
ghost use Rattle.algorithms.specs.declared.fault.ReadFault.TheVariants.{OutOfMemory as NoMemory};
ghost use Rattle.algorithm_texts.specs.Fronts.{named_by};
ghost use Rattle.algorithm_texts.specs.Parts.{formula_of};
ghost use Rattle.algorithm_texts.specs.Operands.{RefusesAs, names_of};
ghost use Rattle.algorithm_texts.specs.Drafts.{draft_view, fact_form};
ghost use Rattle.algorithm_texts.specs.LineDrafts.{Drafts, scope_in, with_names};
ghost use Rattle.algorithm_texts.specs.LineFaults.{claim_fault, claimed_condition_fault, fact_fault, facts_fault, first_name_fault, named_processes_fault, never_fault, phase_fact_fault, place_fact_fault, second_process_fault, test_fact_fault, undeclared_name_fault, word_fact_fault};
ghost use Rattle.algorithm_texts.specs.NeverClaims.{FactsRead, MakesFacts, begins_shared_word, begins_test, fact_letters, facts_of, first_name, phase_words, read_claim, read_claimed_condition, read_fact, read_facts, read_named_processes, read_never, read_phase_fact, read_place_fact, read_processes, read_second_process, read_test_fact, read_value_fact, read_word_fact, with_fact, with_facts_read, with_test};
ghost use Rattle.algorithm_texts.specs.NewNames.{undeclared_name};
ghost use Rattle.algorithm_texts.specs.Tokens.{value_of_name};

use crate::first_values::has_me;
use crate::lines::{ClaimLabel, Draft};
use crate::names::{index_of, is_declared, new_name, push_name, undeclared_name};
use crate::parts::{after, after_sign, letters};
use crate::tokens::{LineWord, Sign, Token, is_sign, is_word, spells};
use algorithms::algorithm::Algorithm;
use algorithms::condition::{Comparison, Condition};
use algorithms::fault::ReadFault;
use algorithms::never_claim::{ClaimedPhase, NeverClaim, StateFact};
use std::alloc::Global;
use std::mem;

/// A condition as far as it is read, from its last token back: its tokens, in which each fact stands as a name, and the facts.
#[derive(Drop)]
pub struct ClaimReading {
    pub tokens: Vec<Token>,
    pub facts: Vec<StateFact>,
}

/// The letters that name the fact of this number. No name of a text begins with a digit.
fn fact_letters(name: usize) -> Result<LineWord, ReadFault>
    ensures { result ≡ Ok (fact_letters name) }
{
    LineWord::of(&[b'0' + (name / 10 % 10) as u8, b'0' + (name % 10) as u8])
}

/// The phase of this name.
fn phase_named(word: &[u8]) -> Option<ClaimedPhase>
    ensures { result ≡ value_of_name phase_words word.now }
{
    if spells(word, b"out") {
        Some(ClaimedPhase::Out)
    } else if spells(word, b"doorway") {
        Some(ClaimedPhase::Doorway)
    } else if spells(word, b"waiting") {
        Some(ClaimedPhase::Waiting)
    } else if spells(word, b"inside") {
        Some(ClaimedPhase::Inside)
    } else if spells(word, b"dead") {
        Some(ClaimedPhase::Dead)
    } else {
        None
    }
}

/// The phase that a token names.
fn phase_of(token: Option<&Token>) -> Option<ClaimedPhase>
    ensures { result ≡ named_by phase_words (option_copied token.entry) }
{
    phase_named(letters(token)?.as_bytes())
}

/// The name of these letters.
fn name_place(algorithm: &Algorithm, name: LineWord) -> Option<usize>
    ensures { result ≡ position (λ other. bytes_eq other name) (names_of algorithm.now) }
{
    index_of(algorithm, name.as_bytes())
}

/// These tokens, and those after them.
fn joined_tokens(alloc: Global, front: &[Token], rest: &[Token]) -> Result<Vec<Token>, ReadFault>
    ensures ok { IfOk result (λ all. all.items ≡ front.now ++ rest.now) }
    ensures err { IfErr result (λ fault. fault ≡ NoMemory) }
{
    let mut all = Vec::from_slice(alloc, front)?;
    all.extend_from_slice(rest)?;
    Ok(all)
}

/// Whether a shared word comes next.
fn begins_shared_word(draft: &Draft, token: Option<&Token>) -> bool
    ensures { result ≡ begins_shared_word (draft_view draft.now).declared (option_copied token.entry) }
{
    match token {
        Some(Token::Word(word)) => is_declared(&draft.algorithm, word.as_bytes()),
        Some(Token::Sign(_) | Token::Number(_)) | None => false,
    }
}

/// Whether the name of a phase or of a label comes after it.
fn begins_test(token: &Token) -> bool
    ensures { result ≡ begins_test token.now }
{
    is_word(Some(token), b"is") || is_word(Some(token), b"at")
}

impl Draft {
    /// A name of a process that the claim does not have yet, which is added.
    fn add_process(&mut self, alloc: Global, token: Option<&Token>) -> Result<LineWord, ReadFault>
        requires { length (draft_view self.old).names ≤ 1 }
        ensures name { MatchResult result
            (λ word. (undeclared_name (scope_in (draft_view self.old)) (draft_view self.old).names (option_copied token.entry)
            ≡ Some word) × ((draft_view self.new).names ≡ (draft_view self.old).names ++ word ∷ []))
            (λ fault. RefusesAs fault
            (undeclared_name (scope_in (draft_view self.old)) (draft_view self.old).names (option_copied token.entry))
            (undeclared_name_fault (option_copied token.entry))) }
        ensures kept { draft_view self.new ≡ with_names (draft_view self.new).names (draft_view self.old) }
    {
        let name = undeclared_name(&self.algorithm, token)?;
        push_name(alloc, &mut self.algorithm, name.as_bytes())?;
        Ok(name)
    }

    /// A second process and the colon after it, and the tokens after that.
    fn second_process<'t>(
        &mut self,
        alloc: Global,
        tokens: &'t [Token],
    ) -> Result<&'t [Token], ReadFault>
        requires { length (draft_view self.old).names ≡ 1 }
        ensures processes { MatchResult result
            (λ rest. read_second_process (scope_in (draft_view self.old)) (draft_view self.old).names tokens.now
            ≡ Some ((draft_view self.new).names, rest.now))
            (λ fault. RefusesAs fault
            (read_second_process (scope_in (draft_view self.old)) (draft_view self.old).names tokens.now)
            (second_process_fault (scope_in (draft_view self.old)) (draft_view self.old).names tokens.now)) }
        ensures kept { draft_view self.new ≡ with_names (draft_view self.new).names (draft_view self.old) }
    {
        let rest = after_sign(tokens, Sign::Comma)?;
        self.add_process(alloc, rest.first())?;
        after_sign(after(rest, 1), Sign::Colon)
    }

    /// One process or two, up to a colon, and the tokens after it.
    fn named_processes<'t>(
        &mut self,
        alloc: Global,
        tokens: &'t [Token],
    ) -> Result<&'t [Token], ReadFault>
        requires { (draft_view self.old).names ≡ [] }
        ensures processes { MatchResult result
            (λ rest. read_named_processes (scope_in (draft_view self.old)) tokens.now ≡ Some ((draft_view self.new).names, rest.now))
            (λ fault. RefusesAs fault (read_named_processes (scope_in (draft_view self.old)) tokens.now)
            (named_processes_fault (scope_in (draft_view self.old)) tokens.now)) }
        ensures kept { draft_view self.new ≡ with_names (draft_view self.new).names (draft_view self.old) }
    {
        self.add_process(alloc, tokens.first())?;
        if is_sign(tokens.get(1), Sign::Colon) {
            Ok(after(tokens, 2))
        } else {
            self.second_process(alloc, after(tokens, 1))
        }
    }

    /// The processes that a claim names, where it does, and the tokens after them.
    fn claim_processes<'t>(
        &mut self,
        alloc: Global,
        tokens: &'t [Token],
    ) -> Result<&'t [Token], ReadFault>
        requires { (draft_view self.old).names ≡ [] }
        ensures processes { MatchResult result
            (λ rest. read_processes (scope_in (draft_view self.old)) tokens.now ≡ Some ((draft_view self.new).names, rest.now))
            (λ fault. RefusesAs fault (read_processes (scope_in (draft_view self.old)) tokens.now)
            (named_processes_fault (scope_in (draft_view self.old)) (drop 1 tokens.now))) }
        ensures kept { draft_view self.new ≡ with_names (draft_view self.new).names (draft_view self.old) }
    {
        if is_word(tokens.first(), b"for") {
            self.named_processes(alloc, after(tokens, 1))
        } else {
            Ok(tokens)
        }
    }

    /// Adds the name of one fact more. `TooBig` where there are as many names as can be.
    fn add_fact_name(&mut self, alloc: Global) -> Result<LineWord, ReadFault>
        ensures name { MatchResult result
            (λ word. (length (draft_view self.old).names < 64) × (word ≡ fact_letters (length (draft_view self.old).names))
            × ((draft_view self.new).names ≡ (draft_view self.old).names ++ word ∷ []))
            (λ fault. (fault ≡ NoMemory) ⊎ ((64 ≤ length (draft_view self.old).names) × (fault ≡ ReadFault.TooBig))) }
        ensures kept { draft_view self.new ≡ with_names (draft_view self.new).names (draft_view self.old) }
    {
        let name = fact_letters(self.algorithm.names.len())?;
        push_name(alloc, &mut self.algorithm, name.as_bytes())?;
        Ok(name)
    }

    /// Adds a fact, whose name stands before these tokens. `TooBig` where there are as many names as can be.
    #[tactic(auto, using(crate::proofs::ClaimFacts::fact_made, crate::proofs::ClaimFacts::fact_refused))]
    fn add_fact(
        &mut self,
        alloc: Global,
        fact: StateFact,
        tokens: &[Token],
        read: &mut ClaimReading,
    ) -> Result<(), ReadFault>
        ensures facts { MakesFacts (facts_of read.new (draft_view self.new)) result
            (with_fact (fact_form fact) tokens.now (facts_of read.old (draft_view self.old))) ReadFault.TooBig }
        ensures kept { draft_view self.new ≡ with_facts_read (facts_of read.new (draft_view self.new)) (draft_view self.old) }
    {
        let name = self.add_fact_name(alloc)?;
        read.facts.push(fact)?;
        read.tokens = joined_tokens(alloc, &[Token::Word(name)], tokens)?;
        Ok(())
    }

    /// Adds a fact that is so, before these tokens. It stands in brackets, so that nothing beside it is read with it.
    fn add_test(
        &mut self,
        alloc: Global,
        fact: StateFact,
        tokens: &[Token],
        read: &mut ClaimReading,
    ) -> Result<(), ReadFault>
        ensures facts { MakesFacts (facts_of read.new (draft_view self.new)) result
            (with_test (fact_form fact) tokens.now (facts_of read.old (draft_view self.old))) ReadFault.TooBig }
        ensures kept { draft_view self.new ≡ with_facts_read (facts_of read.new (draft_view self.new)) (draft_view self.old) }
    {
        let one = [
            Token::Sign(Sign::Comparison(Comparison::Equal)),
            Token::Number(1),
            Token::Sign(Sign::Close),
        ];
        let all = joined_tokens(alloc, &one, tokens)?;
        self.add_fact(alloc, fact, all.as_slice(), read)?;
        read.tokens = joined_tokens(alloc, &[Token::Sign(Sign::Open)], read.tokens.as_slice())?;
        Ok(())
    }

    /// Reads a shared word that stands first, with its index.
    fn word_fact(&mut self, alloc: Global, read: &mut ClaimReading) -> Result<(), ReadFault>
        ensures facts { MakesFacts (facts_of read.new (draft_view self.new)) result
            (read_word_fact (draft_view self.old) (facts_of read.old (draft_view self.old)))
            (word_fact_fault (draft_view self.old) (facts_of read.old (draft_view self.old))) }
        ensures kept { draft_view self.new ≡ with_facts_read (facts_of read.new (draft_view self.new)) (draft_view self.old) }
    {
        let tokens = joined_tokens(alloc, read.tokens.as_slice(), &[])?;
        let known = self.algorithm.names.len();
        let (word, rest) = self.word(alloc, tokens.as_slice())?;
        if self.algorithm.names.len() != known {
            return Err(ReadFault::UnknownName);
        }
        self.add_fact(alloc, StateFact::Word(word), rest, read)
    }

    /// Reads a shared word, where one stands first.
    fn value_fact(&mut self, alloc: Global, read: &mut ClaimReading) -> Result<(), ReadFault>
        ensures facts { MakesFacts (facts_of read.new (draft_view self.new)) result
            (read_value_fact (draft_view self.old) (facts_of read.old (draft_view self.old)))
            (word_fact_fault (draft_view self.old) (facts_of read.old (draft_view self.old))) }
        ensures kept { draft_view self.new ≡ with_facts_read (facts_of read.new (draft_view self.new)) (draft_view self.old) }
    {
        if begins_shared_word(self, read.tokens.first()) {
            self.word_fact(alloc, read)
        } else {
            Ok(())
        }
    }

    /// The name that stands first. `UnknownName` where there is no such name.
    fn first_name(&self, read: &ClaimReading) -> Result<usize, ReadFault>
        ensures { MatchResult result (λ name. first_name (facts_of read.now (draft_view self.now)) ≡ Some name)
            (λ fault. (first_name (facts_of read.now (draft_view self.now)) ≡ None)
            × (fault ≡ first_name_fault (facts_of read.now (draft_view self.now)))) }
    {
        match letters(read.tokens.first()) {
            None => Err(ReadFault::BadForm),
            Some(name) => match name_place(&self.algorithm, name) {
                None => Err(ReadFault::UnknownName),
                Some(place) => Ok(place),
            },
        }
    }

    /// Reads `NAME is PHASE`.
    fn phase_fact(&mut self, alloc: Global, read: &mut ClaimReading) -> Result<(), ReadFault>
        ensures facts { MakesFacts (facts_of read.new (draft_view self.new)) result
            (read_phase_fact (facts_of read.old (draft_view self.old))) (phase_fact_fault (facts_of read.old (draft_view self.old))) }
        ensures kept { draft_view self.new ≡ with_facts_read (facts_of read.new (draft_view self.new)) (draft_view self.old) }
    {
        let name = self.first_name(read)?;
        let Some(phase) = phase_of(read.tokens.get(2)) else {
            return Err(ReadFault::BadForm);
        };
        let rest = joined_tokens(alloc, after(read.tokens.as_slice(), 3), &[])?;
        self.add_test(
            alloc,
            StateFact::Phase { name, phase },
            rest.as_slice(),
            read,
        )
    }

    /// Adds a label that a claim names, and answers its index.
    fn add_label(&mut self, name: LineWord) -> Result<usize, ReadFault>
        ensures place { IfOk result (λ label. label ≡ length (draft_view self.old).claim_labels) }
        ensures ok { OnOk result (draft_view self.new ≡ record (draft_view self.old) {
          claim_labels = (draft_view self.old).claim_labels ++ record { name = name; number = (draft_view self.old).number } ∷ [];
        }) }
        ensures err { IfErr result (λ fault. fault ≡ NoMemory) }
        ensures kept { draft_view self.new ≡ record (draft_view self.old) { claim_labels = (draft_view self.new).claim_labels } }
    {
        let label = self.claim_labels.len();
        let number = self.number;
        self.claim_labels.push(ClaimLabel { name, number })?;
        Ok(label)
    }

    /// Reads `NAME at LABEL`.
    fn place_fact(&mut self, alloc: Global, read: &mut ClaimReading) -> Result<(), ReadFault>
        ensures facts { MakesFacts (facts_of read.new (draft_view self.new)) result
            (read_place_fact (draft_view self.old).number (facts_of read.old (draft_view self.old)))
            (place_fact_fault (facts_of read.old (draft_view self.old))) }
        ensures kept { draft_view self.new ≡ with_facts_read (facts_of read.new (draft_view self.new)) (draft_view self.old) }
    {
        let name = self.first_name(read)?;
        let word = new_name(read.tokens.get(2))?;
        let label = self.add_label(word)?;
        let rest = joined_tokens(alloc, after(read.tokens.as_slice(), 3), &[])?;
        self.add_test(
            alloc,
            StateFact::Place { name, label },
            rest.as_slice(),
            read,
        )
    }

    /// Reads `NAME is PHASE` or `NAME at LABEL`, where one stands first.
    fn test_fact(&mut self, alloc: Global, read: &mut ClaimReading) -> Result<(), ReadFault>
        ensures facts { MakesFacts (facts_of read.new (draft_view self.new)) result
            (read_test_fact (draft_view self.old).number (facts_of read.old (draft_view self.old)))
            (test_fact_fault (facts_of read.old (draft_view self.old))) }
        ensures kept { draft_view self.new ≡ with_facts_read (facts_of read.new (draft_view self.new)) (draft_view self.old) }
    {
        if letters(read.tokens.first()).is_none() {
            Ok(())
        } else if is_word(read.tokens.get(1), b"is") {
            self.phase_fact(alloc, read)
        } else if is_word(read.tokens.get(1), b"at") {
            self.place_fact(alloc, read)
        } else {
            Ok(())
        }
    }

    /// Reads one token more, before those that are read. `names`: it is the name of a phase or of a label.
    fn claim_token(
        &mut self,
        alloc: Global,
        names: bool,
        token: Token,
        read: &mut ClaimReading,
    ) -> Result<(), ReadFault>
        ensures facts { MakesFacts (facts_of read.new (draft_view self.new)) result
            (read_fact (draft_view self.old) names token (facts_of read.old (draft_view self.old)))
            (fact_fault (draft_view self.old) token (facts_of read.old (draft_view self.old))) }
        ensures kept { draft_view self.new ≡ with_facts_read (facts_of read.new (draft_view self.new)) (draft_view self.old) }
    {
        read.tokens = joined_tokens(alloc, &[token], read.tokens.as_slice())?;
        if names {
            return Ok(());
        }
        self.value_fact(alloc, read)?;
        self.test_fact(alloc, read)
    }

    /// Reads all tokens, from the last one back. `names`: the first is the name of a phase or of a label.
    #[tactic(auto, using(crate::proofs::ClaimFacts::facts_step, crate::proofs::ClaimFacts::facts_none, crate::proofs::ClaimFacts::fault_step))]
    fn claim_tokens(
        &mut self,
        alloc: Global,
        names: bool,
        tokens: &[Token],
        read: &mut ClaimReading,
    ) -> Result<(), ReadFault>
        ensures facts { MakesFacts (facts_of read.new (draft_view self.new)) result
            (read_facts (draft_view self.old) (facts_of read.old (draft_view self.old)) names tokens.now)
            (facts_fault (draft_view self.old) (facts_of read.old (draft_view self.old)) tokens.now) }
        ensures kept { draft_view self.new ≡ with_facts_read (facts_of read.new (draft_view self.new)) (draft_view self.old) }
    {
        match tokens.first() {
            None => Ok(()),
            Some(token) => {
                self.claim_tokens(alloc, begins_test(token), after(tokens, 1), read)?;
                self.claim_token(alloc, names, *token, read)
            }
        }
    }

    /// The condition between facts. `UnknownName` where it names something else.
    fn claimed_condition(
        &mut self,
        alloc: Global,
        read: &ClaimReading,
    ) -> Result<Condition, ReadFault>
        ensures condition { MatchResult result
            (λ c. read_claimed_condition (draft_view self.old) (facts_of read.now (draft_view self.old)) ≡ Some (formula_of c))
            (λ fault. RefusesAs fault (read_claimed_condition (draft_view self.old) (facts_of read.now (draft_view self.old)))
            (claimed_condition_fault (draft_view self.old) (facts_of read.now (draft_view self.old)))) }
        ensures kept { draft_view self.new ≡ with_names (draft_view self.new).names (draft_view self.old) }
    {
        let known = self.algorithm.names.len();
        let condition = self.condition(alloc, read.tokens.as_slice())?;
        if self.algorithm.names.len() == known {
            Ok(condition)
        } else {
            Err(ReadFault::UnknownName)
        }
    }

    /// The facts and the condition of a claim, whose processes are the names of the draft.
    fn claim(
        &mut self,
        alloc: Global,
        tokens: &[Token],
    ) -> Result<(Vec<StateFact>, Condition), ReadFault>
        ensures claim { MatchResult result
            (λ c. (r : FactsRead) × (read_claim (draft_view self.old) tokens.now ≡ Some (r, formula_of c.1))
            × (r.facts ≡ map fact_form c.0.items) × (r.labels ≡ (draft_view self.new).claim_labels))
            (λ fault. RefusesAs fault (read_claim (draft_view self.old) tokens.now) (claim_fault (draft_view self.old) tokens.now)) }
        ensures kept { draft_view self.new ≡ record (draft_view self.old) {
          names = (draft_view self.new).names;
          claim_labels = (draft_view self.new).claim_labels;
        } }
    {
        if has_me(tokens) {
            return Err(ReadFault::BadForm);
        }
        let mut read = ClaimReading {
            tokens: Vec::new(alloc),
            facts: Vec::new(alloc),
        };
        self.claim_tokens(alloc, false, tokens, &mut read)?;
        let condition = self.claimed_condition(alloc, &read)?;
        let ClaimReading { facts, .. } = read;
        Ok((facts, condition))
    }

    /// Reads `never CONDITION` or `never for NAMES: CONDITION`, after the word `never`.
    #[tactic(auto, using(crate::proofs::ClaimFacts::never_made))]
    pub fn take_never(&mut self, alloc: Global, tokens: &[Token]) -> Result<(), ReadFault>
        ensures { Drafts (draft_view self.new) result (read_never (draft_view self.old) tokens.now)
            (never_fault (draft_view self.old) tokens.now) }
    {
        let names = mem::replace(&mut self.algorithm.names, Vec::new(alloc));
        let rows = mem::replace(&mut self.algorithm.rows, Vec::new(alloc));
        let rest = self.claim_processes(alloc, tokens)?;
        let processes = self.algorithm.names.len();
        let (facts, condition) = self.claim(alloc, rest)?;
        self.algorithm.names = names;
        self.algorithm.rows = rows;
        let number = self.number;
        self.algorithm.claims.push(NeverClaim {
            number,
            processes,
            facts,
            condition,
        })?;
        Ok(())
    }
}
