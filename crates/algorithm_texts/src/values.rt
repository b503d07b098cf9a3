//! Values and conditions from tokens, by the strength of their operators.

ghost use Rattle.std.specs.Prelude.{◌≡◌, ◌⊎◌, List, ℕ, IsAscii, IfOk, IfErr, OnOk, Some, MatchResult};
ghost use Rattle.algorithms.specs.declared.fault.ReadFault.TheVariants.{OutOfMemory as NoMemory, BadForm as NoForm};
ghost use Rattle.algorithm_texts.specs.declared.tokens.Sign.TheVariants.{Close as CloseSign, CloseIndex as CloseIndexSign, Comma as CommaSign};
ghost use Rattle.algorithm_texts.specs.declared.tokens.Token.TheVariants.{Word as WordToken, Sign as SignToken};
ghost use Rattle.algorithm_texts.specs.Parts.{part_of, term_of, formula_of, Value as ValuePart, Condition as ConditionPart};
ghost use Rattle.algorithm_texts.specs.Grammar.{word_value as word_value_of, row_read, Says};
ghost use Rattle.algorithm_texts.specs.Stacks.{Waits, head_of, reading_after_name, reading_after_word, reading_at_part, reading_after_head, reading_after_row, joint_of, joining, reading_after_part, reading_after_token, run, part_at_end, read_part, reading, Begins};
ghost use Rattle.algorithm_texts.specs.Operands.{stack_of, next_of, Turns, MakesWord, EndsOperand, ReadsOperand, SayNoValue, SayNoCondition, scope_of, names_of, RefusesAs};
ghost use Rattle.algorithm_texts.specs.LineDrafts.{read_value, read_condition};
ghost use Rattle.algorithm_texts.specs.LineFaults.{name_read_fault, begun_fault, headed_fault, rowed_fault, index_fault, followed_fault, token_fault, run_fault, value_fault};

use crate::names::named_value;
use crate::operands::{Bracket, Joint, Operand, form_fault};
use crate::rows::row_read;
use crate::stack::{
    Stack, StackPlace, Waiting, close, close_index, comma, open, open_index, reduce,
};
use crate::tokens::{Sign, Token, spells};
use algorithms::algorithm::Algorithm;
use algorithms::condition::Condition;
use algorithms::expression::Expression;
use algorithms::fault::ReadFault;
use std::alloc::Global;

/// The bracket that comes next after this word.
fn bracket_after(word: &[u8]) -> Option<Bracket>
    ensures { result ≡ head_of word.now }
{
    if spells(word, b"not") {
        Some(Bracket::Not)
    } else if spells(word, b"max") {
        Some(Bracket::Max)
    } else if spells(word, b"min") {
        Some(Bracket::Min)
    } else {
        None
    }
}

/// The value that a word is: a number of the format, that of a constant, or a private name.
fn word_value(
    alloc: Global,
    algorithm: &mut Algorithm,
    word: &[u8],
) -> Result<Expression, ReadFault>
    requires { IsAscii word.now }
    ensures value { MakesWord (names_of algorithm.new) result
        (word_value_of (scope_of algorithm.old) (names_of algorithm.old) word.now)
        (name_read_fault (scope_of algorithm.old) word.now) }
    ensures kept { algorithm.new ≡ record algorithm.old { names = algorithm.new.names } }
{
    if spells(word, b"me") {
        Ok(Expression::Me)
    } else if spells(word, b"procs") {
        Ok(Expression::Procs)
    } else if spells(word, b"limit") {
        Ok(Expression::Limit)
    } else {
        named_value(alloc, algorithm, word)
    }
}

/// Reads a name where a part begins. The index of a row comes next after its name.
fn first_name(
    alloc: Global,
    algorithm: &mut Algorithm,
    word: &[u8],
) -> Result<StackPlace, ReadFault>
    requires { IsAscii word.now }
    ensures place { (ws : List Waits) → Turns (names_of algorithm.new) ws result
        (reading_after_name (scope_of algorithm.old) (names_of algorithm.old) ws word.now (row_read (scope_of algorithm.old) word.now))
        (name_read_fault (scope_of algorithm.old) word.now) }
    ensures kept { algorithm.new ≡ record algorithm.old { names = algorithm.new.names } }
{
    match row_read(alloc, algorithm, word)? {
        Some((first, size)) => Ok(StackPlace::Row(first, size)),
        None => Ok(StackPlace::After(Operand::Value(word_value(alloc, algorithm, word)?))),
    }
}

/// Reads a word where a part begins.
fn first_word(
    alloc: Global,
    algorithm: &mut Algorithm,
    word: &[u8],
) -> Result<StackPlace, ReadFault>
    requires { IsAscii word.now }
    ensures place { (ws : List Waits) → Turns (names_of algorithm.new) ws result
        (reading_after_word (scope_of algorithm.old) (names_of algorithm.old) ws word.now (head_of word.now))
        (name_read_fault (scope_of algorithm.old) word.now) }
    ensures kept { algorithm.new ≡ record algorithm.old { names = algorithm.new.names } }
{
    match bracket_after(word) {
        Some(head) => Ok(StackPlace::Head(head)),
        None => first_name(alloc, algorithm, word),
    }
}

/// Reads a token where a part begins.
fn begin(
    alloc: Global,
    algorithm: &mut Algorithm,
    stack: &mut Stack,
    token: &Token,
) -> Result<StackPlace, ReadFault>
    ensures place { Turns (names_of algorithm.new) (stack_of stack.new) result
        (reading_at_part (scope_of algorithm.old) (names_of algorithm.old) (stack_of stack.old) token.now)
        (begun_fault (scope_of algorithm.old) token.now) }
    ensures kept { algorithm.new ≡ record algorithm.old { names = algorithm.new.names } }
{
    match token {
        Token::Number(number) => Ok(StackPlace::After(Operand::Value(Expression::Number(*number)))),
        Token::Word(word) => first_word(alloc, algorithm, word.as_bytes()),
        Token::Sign(Sign::Open) => open(stack, Bracket::Plain),
        Token::Sign(_) => Err(ReadFault::BadForm),
    }
}

/// Reads the bracket after its word.
fn head(stack: &mut Stack, head: Bracket, token: &Token) -> Result<StackPlace, ReadFault>
    ensures { (names : List (List ℕ)) → Turns names (stack_of stack.new) result
        (reading_after_head names (stack_of stack.old) head token.now) (headed_fault token.now) }
{
    match token {
        Token::Sign(Sign::Open) => open(stack, head),
        _ => Err(ReadFault::BadForm),
    }
}

/// Reads the index of a row after its name.
fn row_index(
    stack: &mut Stack,
    first: usize,
    size: Expression,
    token: &Token,
) -> Result<StackPlace, ReadFault>
    ensures { (names : List (List ℕ)) → Turns names (stack_of stack.new) result
        (reading_after_row names (stack_of stack.old) first (term_of size) token.now) (rowed_fault token.now) }
{
    match token {
        Token::Sign(Sign::OpenIndex) => open_index(stack, first, size),
        _ => {
            drop(size);
            Err(ReadFault::BadForm)
        }
    }
}

/// The word between two conditions.
fn joint_word(word: &[u8]) -> Option<Joint>
    ensures { result ≡ joint_of (WordToken word.now) }
{
    if spells(word, b"and") {
        Some(Joint::And)
    } else if spells(word, b"or") {
        Some(Joint::Or)
    } else {
        None
    }
}

/// Reads what stands between two parts, after this one.
fn join_on(
    alloc: Global,
    stack: &mut Stack,
    part: Operand,
    joint: Joint,
) -> Result<StackPlace, ReadFault>
    ensures { (names : List (List ℕ)) → Turns names (stack_of stack.new) result
        (joining names (stack_of stack.old) (part_of part) (Some joint)) NoForm }
{
    let left = reduce(alloc, stack, part, joint.strength())?;
    stack.push(Waiting::Joint(left, joint))?;
    Ok(StackPlace::Start)
}

/// Reads a word after a part.
fn join_by(
    alloc: Global,
    stack: &mut Stack,
    part: Operand,
    word: &[u8],
) -> Result<StackPlace, ReadFault>
    ensures { (names : List (List ℕ)) → Turns names (stack_of stack.new) result
        (reading_after_part names (stack_of stack.old) (part_of part) (WordToken word.now)) NoForm }
{
    match joint_word(word) {
        Some(joint) => join_on(alloc, stack, part, joint),
        None => Err(form_fault(part)),
    }
}

/// What is wrong with an index after a value: the word before it would be a shared one that is not declared.
fn index_fault(part: &Operand) -> ReadFault
    ensures { result ≡ index_fault (part_of part.now) }
{
    match part {
        Operand::Value(Expression::Private(_)) => ReadFault::UnknownName,
        _ => ReadFault::BadForm,
    }
}

/// Ends the innermost bracket.
fn close_after(alloc: Global, stack: &mut Stack, part: Operand) -> Result<StackPlace, ReadFault>
    ensures { (names : List (List ℕ)) → Turns names (stack_of stack.new) result
        (reading_after_part names (stack_of stack.old) (part_of part) (SignToken CloseSign)) NoForm }
{
    let whole = reduce(alloc, stack, part, 1)?;
    close(alloc, stack, whole)
}

/// Ends the innermost index.
fn close_index_after(
    alloc: Global,
    stack: &mut Stack,
    part: Operand,
) -> Result<StackPlace, ReadFault>
    ensures { (names : List (List ℕ)) → Turns names (stack_of stack.new) result
        (reading_after_part names (stack_of stack.old) (part_of part) (SignToken CloseIndexSign)) NoForm }
{
    let whole = reduce(alloc, stack, part, 1)?;
    close_index(alloc, stack, whole)
}

/// Reads the comma of the innermost bracket.
fn comma_after(alloc: Global, stack: &mut Stack, part: Operand) -> Result<StackPlace, ReadFault>
    ensures { (names : List (List ℕ)) → Turns names (stack_of stack.new) result
        (reading_after_part names (stack_of stack.old) (part_of part) (SignToken CommaSign)) NoForm }
{
    let whole = reduce(alloc, stack, part, 1)?;
    comma(stack, whole)
}

/// Reads a sign after a part.
fn sign_after(
    alloc: Global,
    stack: &mut Stack,
    part: Operand,
    sign: Sign,
) -> Result<StackPlace, ReadFault>
    ensures { (names : List (List ℕ)) → Turns names (stack_of stack.new) result
        (reading_after_part names (stack_of stack.old) (part_of part) (SignToken sign))
        (followed_fault (part_of part) (SignToken sign)) }
{
    match sign {
        Sign::Close => close_after(alloc, stack, part),
        Sign::Comma => comma_after(alloc, stack, part),
        Sign::Operator(operator) => join_on(alloc, stack, part, Joint::Operator(operator)),
        Sign::Comparison(comparison) => join_on(alloc, stack, part, Joint::Comparison(comparison)),
        Sign::OpenIndex => {
            let fault = index_fault(&part);
            drop(part);
            Err(fault)
        }
        Sign::Assign => Err(form_fault(part)),
        Sign::Colon => Err(form_fault(part)),
        Sign::Open => Err(form_fault(part)),
        Sign::CloseIndex => close_index_after(alloc, stack, part),
    }
}

/// Reads a token after a part.
fn go_on(
    alloc: Global,
    stack: &mut Stack,
    part: Operand,
    token: &Token,
) -> Result<StackPlace, ReadFault>
    ensures { (names : List (List ℕ)) → Turns names (stack_of stack.new) result
        (reading_after_part names (stack_of stack.old) (part_of part) token.now) (followed_fault (part_of part) token.now) }
{
    match token {
        Token::Sign(sign) => sign_after(alloc, stack, part, *sign),
        Token::Word(word) => join_by(alloc, stack, part, word.as_bytes()),
        Token::Number(_) => Err(form_fault(part)),
    }
}

/// Reads one more token.
fn turn(
    alloc: Global,
    algorithm: &mut Algorithm,
    stack: &mut Stack,
    place: StackPlace,
    token: &Token,
) -> Result<StackPlace, ReadFault>
    ensures place { Turns (names_of algorithm.new) (stack_of stack.new) result
        (reading_after_token (scope_of algorithm.old) (names_of algorithm.old) (stack_of stack.old) (next_of place) token.now)
        (token_fault (scope_of algorithm.old) (next_of place) token.now) }
    ensures kept { algorithm.new ≡ record algorithm.old { names = algorithm.new.names } }
{
    match place {
        StackPlace::Start => begin(alloc, algorithm, stack, token),
        StackPlace::Head(bracket) => head(stack, bracket, token),
        StackPlace::Row(first, size) => row_index(stack, first, size, token),
        StackPlace::After(part) => go_on(alloc, stack, part, token),
    }
}

/// Reads all tokens.
fn read_tokens(
    alloc: Global,
    algorithm: &mut Algorithm,
    stack: &mut Stack,
    tokens: &[Token],
) -> Result<StackPlace, ReadFault>
    ensures place { Turns (names_of algorithm.new) (stack_of stack.new) result
        (run (scope_of algorithm.old) tokens.now (reading (names_of algorithm.old) (stack_of stack.old) Begins))
        (run_fault (scope_of algorithm.old) tokens.now (reading (names_of algorithm.old) (stack_of stack.old) Begins)) }
    ensures faults { OnOk result
        (run_fault (scope_of algorithm.old) tokens.now (reading (names_of algorithm.old) (stack_of stack.old) Begins) ≡ NoForm) }
    ensures kept { algorithm.new ≡ record algorithm.old { names = algorithm.new.names } }
{
    let mut place = StackPlace::Start;
    for token in tokens {
        place = turn(alloc, algorithm, stack, place, token)?;
    }
    Ok(place)
}

/// The one part that is left at the end.
fn end(alloc: Global, stack: &mut Stack, place: StackPlace) -> Result<Operand, ReadFault>
    ensures { (names : List (List ℕ)) → EndsOperand names result (part_at_end names (stack_of stack.old) (next_of place)) }
{
    let StackPlace::After(part) = place else {
        return Err(ReadFault::BadForm);
    };
    let whole = reduce(alloc, stack, part, 1)?;
    match stack.pop() {
        None => Ok(whole),
        Some(last) => Err(form_fault((last, whole))),
    }
}

/// What the tokens say, as a whole.
fn parse(alloc: Global, algorithm: &mut Algorithm, tokens: &[Token]) -> Result<Operand, ReadFault>
    ensures part { ReadsOperand (names_of algorithm.new) result
        (read_part (scope_of algorithm.old) (names_of algorithm.old) tokens.now)
        (value_fault (scope_of algorithm.old) (names_of algorithm.old) tokens.now) }
    ensures faults { OnOk result (value_fault (scope_of algorithm.old) (names_of algorithm.old) tokens.now ≡ NoForm) }
    ensures kept { algorithm.new ≡ record algorithm.old { names = algorithm.new.names } }
{
    let mut stack = Stack::new(alloc);
    let place = read_tokens(alloc, algorithm, &mut stack, tokens)?;
    end(alloc, &mut stack, place)
}

/// The value that the tokens say. The private names that are new are added.
pub fn value(
    alloc: Global,
    algorithm: &mut Algorithm,
    tokens: &[Token],
) -> Result<Expression, ReadFault>
    ensures reads { MatchResult result
        (λ v. read_value (scope_of algorithm.old) (names_of algorithm.old) tokens.now ≡ Some (term_of v, names_of algorithm.new))
        (λ fault. RefusesAs fault (read_value (scope_of algorithm.old) (names_of algorithm.old) tokens.now)
        (value_fault (scope_of algorithm.old) (names_of algorithm.old) tokens.now)) }
    ensures ok { IfOk result (λ v. Says
        (scope_of algorithm.old) (names_of algorithm.old) tokens.now (ValuePart (term_of v)) (names_of algorithm.new)) }
    ensures err { IfErr result (λ fault. (fault ≡ NoMemory)
        ⊎ SayNoValue (scope_of algorithm.old) (names_of algorithm.old) tokens.now) }
    ensures kept { algorithm.new ≡ record algorithm.old { names = algorithm.new.names } }
{
    match parse(alloc, algorithm, tokens) {
        Ok(operand) => operand.value(),
        Err(fault) => Err(fault),
    }
}

/// The condition that the tokens say. The private names that are new are added.
pub fn condition(
    alloc: Global,
    algorithm: &mut Algorithm,
    tokens: &[Token],
) -> Result<Condition, ReadFault>
    ensures reads { MatchResult result
        (λ c. read_condition (scope_of algorithm.old) (names_of algorithm.old) tokens.now ≡ Some (formula_of c, names_of algorithm.new))
        (λ fault. RefusesAs fault (read_condition (scope_of algorithm.old) (names_of algorithm.old) tokens.now)
        (value_fault (scope_of algorithm.old) (names_of algorithm.old) tokens.now)) }
    ensures ok { IfOk result (λ c. Says
        (scope_of algorithm.old) (names_of algorithm.old) tokens.now (ConditionPart (formula_of c)) (names_of algorithm.new)) }
    ensures err { IfErr result (λ fault. (fault ≡ NoMemory)
        ⊎ SayNoCondition (scope_of algorithm.old) (names_of algorithm.old) tokens.now) }
    ensures kept { algorithm.new ≡ record algorithm.old { names = algorithm.new.names } }
{
    match parse(alloc, algorithm, tokens) {
        Ok(operand) => operand.condition(),
        Err(fault) => Err(fault),
    }
}
