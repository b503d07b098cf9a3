//! How many words a declaration has, as texts say it.

ghost use Rattle.std.specs.Prelude.{◌≡◌, slice_get, Some, MatchResult, IfOk, IfErr};
ghost use Rattle.algorithms.specs.declared.expression.Operator.TheVariants.{Product as ProductOf, Within as WithinOf};
ghost use Rattle.algorithms.specs.declared.fault.ReadFault.TheVariants.{OutOfMemory as NoMemory};
ghost use Rattle.algorithm_texts.specs.Parts.{term_of, Joined as JoinedTerm};
ghost use Rattle.algorithm_texts.specs.Operands.{RefusesAs};
ghost use Rattle.algorithm_texts.specs.Drafts.{draft_view, extent_of, OfRows};
ghost use Rattle.algorithm_texts.specs.LineDrafts.{scope_in, with_names, extent_or_one, table_place};
ghost use Rattle.algorithm_texts.specs.LineFaults.{brackets_fault, extent_fault};
ghost use Rattle.algorithm_texts.specs.TextDrafts.{is_procs, extent_by, read_size, read_columns, read_array, read_sizes, read_extent, is_array, has_own_size};

use crate::constants::{copy_value, is_bound};
use crate::lines::Draft;
use crate::operands::form_fault;
use crate::tokens::{Sign, Token, is_sign};
use algorithms::algorithm::Extent;
use algorithms::expression::{Expression, Operator};
use algorithms::fault::ReadFault;
use std::alloc::Global;

/// Two values with an operator between them.
pub fn join_values(
    alloc: Global,
    operator: Operator,
    left: Expression,
    right: Expression,
) -> Result<Expression, ReadFault>
    ensures ok { IfOk result (λ value. term_of value ≡ JoinedTerm operator (term_of left) (term_of right)) }
    ensures err { IfErr result (λ fault. fault ≡ NoMemory) }
{
    let left = Box::new(alloc, left)?;
    let right = Box::new(alloc, right)?;
    Ok(Expression::Joined(operator, left, right))
}

/// A value, an operator, and a copy of another value.
fn join_copy(
    alloc: Global,
    operator: Operator,
    left: Expression,
    right: &Expression,
) -> Result<Expression, ReadFault>
    ensures ok { IfOk result (λ value. term_of value ≡ JoinedTerm operator (term_of left) (term_of right.now)) }
    ensures err { IfErr result (λ fault. fault ≡ NoMemory) }
{
    let right = copy_value(alloc, right)?;
    join_values(alloc, operator, left, right)
}

/// An index of a row of this size.
pub fn index_within(
    alloc: Global,
    index: Expression,
    size: Expression,
) -> Result<Expression, ReadFault>
    ensures ok { IfOk result (λ value. term_of value ≡ JoinedTerm WithinOf (term_of index) (term_of size)) }
    ensures err { IfErr result (λ fault. fault ≡ NoMemory) }
{
    join_values(alloc, Operator::Within, index, size)
}

/// The place of a word in a table with this number of words in a row.
pub fn table_place(
    alloc: Global,
    columns: &Expression,
    row: Expression,
    column: Expression,
) -> Result<Expression, ReadFault>
    ensures ok { IfOk result (λ place. term_of place ≡ table_place (term_of columns.now) (term_of row) (term_of column)) }
    ensures err { IfErr result (λ fault. fault ≡ NoMemory) }
{
    let first = join_copy(alloc, Operator::Product, row, columns)?;
    let second = join_copy(alloc, Operator::Within, column, columns)?;
    join_values(alloc, Operator::Sum, first, second)
}

/// A copy of an extent.
fn copy_extent(alloc: Global, extent: &Extent) -> Result<Extent, ReadFault>
    ensures ok { IfOk result (λ copy. extent_of copy ≡ extent_of extent.now) }
    ensures err { IfErr result (λ fault. fault ≡ NoMemory) }
{
    match extent {
        Extent::One => Ok(Extent::One),
        Extent::Each => Ok(Extent::Each),
        Extent::Array(size) => Ok(Extent::Array(copy_value(alloc, size)?)),
        Extent::Table(size, columns) => {
            let size = copy_value(alloc, size)?;
            let columns = copy_value(alloc, columns)?;
            Ok(Extent::Table(size, columns))
        }
    }
}

/// Whether a size is `procs`.
fn is_procs(size: &Expression) -> bool
    ensures { result ≡ is_procs (term_of size.now) }
{
    match size {
        Expression::Procs => true,
        Expression::Number(_)
        | Expression::Private(_)
        | Expression::Element(..)
        | Expression::Me
        | Expression::Limit
        | Expression::Joined(..) => false,
    }
}

/// An array of this size.
fn extent_by(size: Expression) -> Extent
    ensures { extent_of result ≡ extent_by (term_of size) }
{
    if is_procs(&size) {
        drop(size);
        Extent::Each
    } else {
        Extent::Array(size)
    }
}

/// A table with these numbers of rows and of words in each.
fn table_of(alloc: Global, rows: Expression, columns: Expression) -> Result<Extent, ReadFault>
    ensures ok { IfOk result (λ extent. extent_of extent
        ≡ OfRows (JoinedTerm ProductOf (term_of rows) (term_of columns)) (term_of columns)) }
    ensures err { IfErr result (λ fault. fault ≡ NoMemory) }
{
    let size = join_copy(alloc, Operator::Product, rows, &columns)?;
    Ok(Extent::Table(size, columns))
}

/// Whether there is an array of words.
pub fn is_array(extent: &Extent) -> bool
    ensures { result ≡ is_array (extent_of extent.now) }
{
    match extent {
        Extent::One => false,
        Extent::Each | Extent::Array(_) | Extent::Table(..) => true,
    }
}

/// Whether there is an array of another size than `procs`.
pub fn has_own_size(extent: &Extent) -> bool
    ensures { result ≡ has_own_size (extent_of extent.now) }
{
    match extent {
        Extent::One | Extent::Each => false,
        Extent::Array(_) | Extent::Table(..) => true,
    }
}

impl Draft {
    /// A copy of the extent of a declaration.
    pub fn extent_at(&self, alloc: Global, declaration: usize) -> Result<Extent, ReadFault>
        ensures ok { IfOk result (λ extent. extent_of extent ≡ extent_or_one (slice_get (draft_view self.now).extents declaration)) }
        ensures err { IfErr result (λ fault. fault ≡ NoMemory) }
    {
        match self.algorithm.declarations.get(declaration) {
            Some(declared) => copy_extent(alloc, &declared.extent),
            None => Ok(Extent::One),
        }
    }

    /// A size in brackets, and the tokens after it.
    pub fn size<'t>(
        &mut self,
        alloc: Global,
        tokens: &'t [Token],
    ) -> Result<(Expression, &'t [Token]), ReadFault>
        ensures size { MatchResult result
            (λ r. read_size (scope_in (draft_view self.old)) (draft_view self.old).names tokens.now
            ≡ Some (term_of r.0, r.1.now, (draft_view self.new).names))
            (λ fault. RefusesAs fault (read_size (scope_in (draft_view self.old)) (draft_view self.old).names tokens.now)
            (brackets_fault (scope_in (draft_view self.old)) (draft_view self.old).names tokens.now)) }
        ensures kept { draft_view self.new ≡ with_names (draft_view self.new).names (draft_view self.old) }
    {
        let known = self.algorithm.names.len();
        let (size, rest) = self.brackets(alloc, tokens)?;
        if is_bound(&size) && self.algorithm.names.len() == known {
            Ok((size, rest))
        } else {
            Err(form_fault(size))
        }
    }

    /// The second size of an array after the first one, and the tokens after it.
    fn columns<'t>(
        &mut self,
        alloc: Global,
        rows: Expression,
        tokens: &'t [Token],
    ) -> Result<(Extent, &'t [Token]), ReadFault>
        ensures extent { MatchResult result
            (λ r. read_columns (scope_in (draft_view self.old)) (term_of rows) (draft_view self.old).names tokens.now
            ≡ Some (extent_of r.0, r.1.now, (draft_view self.new).names))
            (λ fault. RefusesAs fault
            (read_columns (scope_in (draft_view self.old)) (term_of rows) (draft_view self.old).names tokens.now)
            (brackets_fault (scope_in (draft_view self.old)) (draft_view self.old).names tokens.now)) }
        ensures kept { draft_view self.new ≡ with_names (draft_view self.new).names (draft_view self.old) }
    {
        let (columns, rest) = self.size(alloc, tokens)?;
        Ok((table_of(alloc, rows, columns)?, rest))
    }

    /// An array with this first size, and the tokens after its second one, where there is one.
    fn array<'t>(
        &mut self,
        alloc: Global,
        size: Expression,
        tokens: &'t [Token],
    ) -> Result<(Extent, &'t [Token]), ReadFault>
        ensures extent { MatchResult result
            (λ r. read_array (scope_in (draft_view self.old)) (term_of size) (draft_view self.old).names tokens.now
            ≡ Some (extent_of r.0, r.1.now, (draft_view self.new).names))
            (λ fault. RefusesAs fault
            (read_array (scope_in (draft_view self.old)) (term_of size) (draft_view self.old).names tokens.now)
            (brackets_fault (scope_in (draft_view self.old)) (draft_view self.old).names tokens.now)) }
        ensures kept { draft_view self.new ≡ with_names (draft_view self.new).names (draft_view self.old) }
    {
        if is_sign(tokens.first(), Sign::OpenIndex) {
            self.columns(alloc, size, tokens)
        } else {
            Ok((extent_by(size), tokens))
        }
    }

    /// The sizes of an array, and the tokens after them.
    fn sizes<'t>(
        &mut self,
        alloc: Global,
        tokens: &'t [Token],
    ) -> Result<(Extent, &'t [Token]), ReadFault>
        ensures extent { MatchResult result
            (λ r. read_sizes (scope_in (draft_view self.old)) (draft_view self.old).names tokens.now
            ≡ Some (extent_of r.0, r.1.now, (draft_view self.new).names))
            (λ fault. RefusesAs fault (read_sizes (scope_in (draft_view self.old)) (draft_view self.old).names tokens.now)
            (extent_fault (scope_in (draft_view self.old)) (draft_view self.old).names tokens.now)) }
        ensures kept { draft_view self.new ≡ with_names (draft_view self.new).names (draft_view self.old) }
    {
        let (size, rest) = self.size(alloc, tokens)?;
        self.array(alloc, size, rest)
    }

    /// How many words a name has, and the tokens after the sizes.
    pub fn extent<'t>(
        &mut self,
        alloc: Global,
        tokens: &'t [Token],
    ) -> Result<(Extent, &'t [Token]), ReadFault>
        ensures extent { MatchResult result
            (λ r. read_extent (scope_in (draft_view self.old)) (draft_view self.old).names tokens.now
            ≡ Some (extent_of r.0, r.1.now, (draft_view self.new).names))
            (λ fault. RefusesAs fault (read_extent (scope_in (draft_view self.old)) (draft_view self.old).names tokens.now)
            (extent_fault (scope_in (draft_view self.old)) (draft_view self.old).names tokens.now)) }
        ensures kept { draft_view self.new ≡ with_names (draft_view self.new).names (draft_view self.old) }
    {
        if is_sign(tokens.first(), Sign::OpenIndex) {
            self.sizes(alloc, tokens)
        } else {
            Ok((Extent::One, tokens))
        }
    }
}
