//! Reads a statement in one pass from the left into steps of building.
//! It must not make trees, and takes no native stack that grows with the words.

ghost use Rattle.std.specs.Prelude.{◌≡◌, ◌∷◌, [], ◌++◌, OnOk, IfOk, IfSome, IfNone, MatchOption, List};
ghost use Rattle.aplc_syntax.specs.Grammar.{Sentence, spell};
ghost use Rattle.aplc_syntax.specs.Reading.{
  State,
  state,
  want,
  begin,
  start,
  more,
  arrow,
  inner,
  outer,
  after,
  perform,
  must,
  only,
  applied,
  scalar,
  stroked,
  dotted,
  product,
  jot,
  pairs,
  along,
  named_axis,
  axis_number,
  axis_end,
  quad,
  step,
  flush,
  close_paren,
  close_bracket,
  next_entry,
  whole,
  finish_in,
  reads,
  run,
};
ghost use Rattle.aplc_syntax.specs.Trees.{reduction, copying};
ghost use Rattle.aplc_syntax.specs.Seen.{IsReading, taken, pending, items_of};

use crate::stack::Stack;
use crate::step::{Along, Inner, Mode, Step, Target, Waiting};
use crate::tree::{Axis, Primitive};
use crate::word::{Arity, Role, Stroke, Word, WordKind};
use aplc_scalar::ScalarFn;
use std::alloc::{AllocError, Global};

fn reduction(stroke: Stroke, f: ScalarFn, axis: Axis) -> Primitive
    ensures { result ≡ reduction stroke f axis }
{
    match stroke {
        Stroke::Slash => Primitive::Reduce(f, axis),
        Stroke::Backslash => Primitive::Scan(f, axis),
    }
}

fn copying(stroke: Stroke, axis: Axis) -> Primitive
    ensures { result ≡ copying stroke axis }
{
    match stroke {
        Stroke::Slash => Primitive::Replicate(axis),
        Stroke::Backslash => Primitive::Expand(axis),
    }
}

/// The step of a function along an axis.
fn along(function: Along, axis: Axis) -> Step
    ensures { result ≡ along function axis }
{
    match function {
        Along::Turn1(p) => Step::Mono(p, Primitive::Reverse(axis)),
        Along::Turn2(p) => Step::Dyad(p, Primitive::Reverse(axis)),
        Along::Reduce(p, f, stroke) => Step::Mono(p, reduction(stroke, f, axis)),
        Along::Copies(p, stroke) => Step::Dyad(p, copying(stroke, axis)),
    }
}

/// What a list behind this belongs to.
fn inner(target: Target) -> Inner
    ensures { result ≡ inner target }
{
    match target {
        Target::Name => Inner::Base,
        _ => Inner::Free,
    }
}

/// What comes behind such a list.
fn outer(list: Inner) -> Mode
    ensures { result ≡ outer list }
{
    match list {
        Inner::Free => Mode::After(Target::No),
        Inner::Base => Mode::After(Target::At),
        Inner::Owed => Mode::Must,
    }
}

/// What waits, and the steps sent out so far.
#[derive(Drop)]
struct Reader {
    ops: Stack,
    out: Vec<Step>,
}

impl Reader {
    fn put(&mut self, step: Step) -> Result<(), AllocError>
        ensures { OnOk result ((self.new.out.items ≡ self.old.out.items ++ step ∷ []) × (self.new.ops ≡ self.old.ops)) }
    {
        self.out.push(step)?;
        Ok(())
    }

    /// Sends a step out; then this may come.
    fn send(&mut self, step: Step, mode: Mode) -> Result<Option<Mode>, AllocError>
        ensures { IfOk result (λ m. taken m self.new.ops self.new.out.items ≡ Some (state mode self.old.ops (self.old.out.items ++ step ∷ []))) }
    {
        self.put(step)?;
        Ok(Some(mode))
    }

    /// A value is wanted, and then this step.
    fn wait(&mut self, step: Step) -> Result<Option<Mode>, AllocError>
        ensures { IfOk result (λ m. taken m self.new.ops self.new.out.items ≡ Some (state Mode.Want (Waiting.Apply step ∷ self.old.ops) self.old.out.items)) }
    {
        self.ops.push(Waiting::Apply(step))?;
        Ok(Some(Mode::Want))
    }

    /// Sends out what waits down to the innermost bracket, and takes that bracket off.
    fn flush(&mut self) -> Result<Option<Waiting>, AllocError>
        ensures { IfOk result (λ o. MatchOption o (flush self.old.ops self.old.out.items ≡ ([], self.new.out.items))
            (λ op. flush self.old.ops self.old.out.items ≡ (op ∷ self.new.ops, self.new.out.items))) }
    {
        while let Some(op) = self.ops.pop() {
            match op {
                Waiting::Apply(step) => self.put(step)?,
                _ => return Ok(Some(op)),
            }
        }
        Ok(None)
    }

    /// A name where a value is wanted.
    fn want_name(&mut self, role: Role, n: u32, p: u32) -> Result<Option<Mode>, AllocError>
        ensures { IfOk result (λ m. taken m self.new.ops self.new.out.items ≡ want (WordKind.Name role n) p self.old.ops self.old.out.items) }
    {
        match role {
            Role::Variable => self.send(Step::Name(p, n), Mode::After(Target::Name)),
            Role::Function(Arity::Niladic) => self.send(
                Step::Call0(p, n),
                Mode::After(Target::Name),
            ),
            Role::Function(Arity::Monadic) => Ok(Some(Mode::Fun(p, n))),
            Role::Function(Arity::Dyadic) => Ok(Some(Mode::Only(p, n))),
            Role::Procedure(_) => Ok(Some(Mode::Only(p, n))),
        }
    }

    /// A word where a value is wanted.
    fn want(&mut self, x: WordKind, p: u32) -> Result<Option<Mode>, AllocError>
        ensures { IfOk result (λ m. taken m self.new.ops self.new.out.items ≡ want x p self.old.ops self.old.out.items) }
    {
        match x {
            WordKind::Number(v) => self.send(Step::Number(p, v), Mode::After(Target::Numbers)),
            WordKind::Text(to) => self.send(Step::Text(p, to), Mode::After(Target::No)),
            WordKind::TextInput => self.send(Step::TextInput(p), Mode::After(Target::No)),
            WordKind::NumsInput => self.send(Step::NumsInput(p), Mode::After(Target::No)),
            WordKind::Name(role, n) => self.want_name(role, n, p),
            WordKind::Arith(f) => Ok(Some(Mode::Scalar(p, f))),
            WordKind::Compare(f) => Ok(Some(Mode::Compare(p, f))),
            WordKind::Not => self.wait(Step::Mono(p, Primitive::Scalar(ScalarFn::Not))),
            WordKind::Both(f) => self.wait(Step::Mono(p, f)),
            WordKind::Turn(axis) => Ok(Some(Mode::Along(Along::Turn1(p), axis))),
            WordKind::Open => {
                self.ops.push(Waiting::Paren)?;
                Ok(Some(Mode::Want))
            }
            WordKind::Quad => Ok(Some(Mode::Quad(p))),
            _ => Ok(None),
        }
    }

    /// A step waits, and a value is wanted.
    fn apply_want(&mut self, step: Step, x: WordKind, p: u32) -> Result<Option<Mode>, AllocError>
        ensures { IfOk result (λ m. taken m self.new.ops self.new.out.items ≡ want x p (Waiting.Apply step ∷ self.old.ops) self.old.out.items) }
    {
        self.ops.push(Waiting::Apply(step))?;
        self.want(x, p)
    }

    /// The first word of a statement.
    fn begin(&mut self, x: WordKind, p: u32) -> Result<Option<Mode>, AllocError>
        ensures { IfOk result (λ m. taken m self.new.ops self.new.out.items ≡ begin x p self.old.ops self.old.out.items) }
    {
        match x {
            WordKind::Branch => self.wait(Step::Branch(p)),
            WordKind::Name(Role::Procedure(Arity::Niladic), n) => Ok(Some(Mode::Proc0(p, n))),
            WordKind::Name(Role::Procedure(Arity::Monadic), n) => Ok(Some(Mode::Proc1(p, n))),
            _ => self.want(x, p),
        }
    }

    /// A word behind a name that can only be assigned.
    fn only(&mut self, x: WordKind, q: u32, p: u32, n: u32) -> Result<Option<Mode>, AllocError>
        ensures { IfOk result (λ m. taken m self.new.ops self.new.out.items ≡ only x q p n self.old.ops self.old.out.items) }
    {
        match x {
            WordKind::Assign => {
                self.put(Step::Name(p, n))?;
                self.wait(Step::Assign)
            }
            WordKind::OpenBracket => {
                self.put(Step::Name(p, n))?;
                self.put(Step::List)?;
                self.ops.push(Waiting::Bracket(q, Inner::Owed))?;
                Ok(Some(Mode::Start))
            }
            _ => Ok(None),
        }
    }

    /// A word behind a function of one argument.
    fn applied(
        &mut self,
        step: Step,
        x: WordKind,
        q: u32,
        p: u32,
        n: u32,
    ) -> Result<Option<Mode>, AllocError>
        ensures { IfOk result (λ m. taken m self.new.ops self.new.out.items ≡ applied step x q p n self.old.ops self.old.out.items) }
    {
        match x {
            WordKind::Assign => self.only(x, q, p, n),
            WordKind::OpenBracket => self.only(x, q, p, n),
            _ => self.apply_want(step, x, q),
        }
    }

    /// A word behind a scalar function, where a value is wanted.
    fn scalar(
        &mut self,
        x: WordKind,
        q: u32,
        p: u32,
        f: ScalarFn,
    ) -> Result<Option<Mode>, AllocError>
        ensures { IfOk result (λ m. taken m self.new.ops self.new.out.items ≡ scalar x q p f self.old.ops self.old.out.items) }
    {
        match x {
            WordKind::Stroke(stroke, axis) => Ok(Some(Mode::Along(
                Along::Reduce(p, f, stroke),
                axis,
            ))),
            _ => self.apply_want(Step::Mono(p, Primitive::Scalar(f)), x, q),
        }
    }

    /// A word behind an operand and a scalar function.
    fn dotted(
        &mut self,
        x: WordKind,
        q: u32,
        p: u32,
        f: ScalarFn,
    ) -> Result<Option<Mode>, AllocError>
        ensures { IfOk result (λ m. taken m self.new.ops self.new.out.items ≡ dotted x q p f self.old.ops self.old.out.items) }
    {
        match x {
            WordKind::Dot => Ok(Some(Mode::Dot(p, f))),
            _ => self.apply_want(Step::Dyad(p, Primitive::Scalar(f)), x, q),
        }
    }

    /// A word behind the dot of an inner product.
    fn product(&mut self, x: WordKind, p: u32, f: ScalarFn) -> Result<Option<Mode>, AllocError>
        ensures { IfOk result (λ m. taken m self.new.ops self.new.out.items ≡ product x p f self.old.ops self.old.out.items) }
    {
        match x {
            WordKind::Arith(g) => self.wait(Step::Dyad(p, Primitive::Inner(f, g))),
            WordKind::Compare(g) => self.wait(Step::Dyad(p, Primitive::Inner(f, g))),
            _ => Ok(None),
        }
    }

    /// A word behind the dot of an outer product.
    fn pairs(&mut self, x: WordKind, p: u32) -> Result<Option<Mode>, AllocError>
        ensures { IfOk result (λ m. taken m self.new.ops self.new.out.items ≡ pairs x p self.old.ops self.old.out.items) }
    {
        match x {
            WordKind::Arith(f) => self.wait(Step::Dyad(p, Primitive::Outer(f))),
            WordKind::Compare(f) => self.wait(Step::Dyad(p, Primitive::Outer(f))),
            _ => Ok(None),
        }
    }

    /// A word behind a function that an axis may follow.
    fn named_axis(
        &mut self,
        x: WordKind,
        q: u32,
        function: Along,
        axis: Axis,
    ) -> Result<Option<Mode>, AllocError>
        ensures { IfOk result (λ m. taken m self.new.ops self.new.out.items ≡ named_axis x q function axis self.old.ops self.old.out.items) }
    {
        match x {
            WordKind::OpenBracket => Ok(Some(Mode::Axis(function))),
            _ => self.apply_want(along(function, axis), x, q),
        }
    }

    /// A word behind the number of an axis.
    fn axis_end(&mut self, x: WordKind, function: Along, v: i64) -> Result<Option<Mode>, AllocError>
        ensures { IfOk result (λ m. taken m self.new.ops self.new.out.items ≡ axis_end x function v self.old.ops self.old.out.items) }
    {
        match x {
            WordKind::CloseBracket => self.wait(along(function, Axis::At(v))),
            _ => Ok(None),
        }
    }

    /// A closing parenthesis.
    fn close_paren(&mut self) -> Result<Option<Mode>, AllocError>
        ensures { IfOk result (λ m. taken m self.new.ops self.new.out.items ≡ close_paren (flush self.old.ops self.old.out.items)) }
    {
        match self.flush()? {
            Some(Waiting::Paren) => self.send(Step::Paren, Mode::After(Target::No)),
            _ => Ok(None),
        }
    }

    /// A list whose bracket was taken off ends with this entry.
    fn end_list(&mut self, entry: Step, op: Waiting) -> Result<Option<Mode>, AllocError>
        ensures { IfOk result (λ m. taken m self.new.ops self.new.out.items ≡ close_bracket entry (op ∷ self.old.ops, self.old.out.items)) }
    {
        match op {
            Waiting::Bracket(p, list) => {
                self.put(entry)?;
                self.send(Step::Index(p), outer(list))
            }
            _ => Ok(None),
        }
    }

    /// A list whose bracket was taken off goes on behind this entry.
    fn go_on(&mut self, entry: Step, op: Waiting) -> Result<Option<Mode>, AllocError>
        ensures { IfOk result (λ m. taken m self.new.ops self.new.out.items ≡ next_entry entry (op ∷ self.old.ops, self.old.out.items)) }
    {
        match op {
            Waiting::Bracket(p, list) => {
                self.put(entry)?;
                self.ops.push(Waiting::Bracket(p, list))?;
                Ok(Some(Mode::Start))
            }
            _ => Ok(None),
        }
    }

    /// A closing bracket behind a value.
    fn close_bracket(&mut self) -> Result<Option<Mode>, AllocError>
        ensures { IfOk result (λ m. taken m self.new.ops self.new.out.items ≡ close_bracket Step.Entry (flush self.old.ops self.old.out.items)) }
    {
        match self.flush()? {
            Some(op) => self.end_list(Step::Entry, op),
            None => Ok(None),
        }
    }

    /// A semicolon behind a value.
    fn next_entry(&mut self) -> Result<Option<Mode>, AllocError>
        ensures { IfOk result (λ m. taken m self.new.ops self.new.out.items ≡ next_entry Step.Entry (flush self.old.ops self.old.out.items)) }
    {
        match self.flush()? {
            Some(op) => self.go_on(Step::Entry, op),
            None => Ok(None),
        }
    }

    /// A word where an entry begins.
    fn start(&mut self, x: WordKind, p: u32) -> Result<Option<Mode>, AllocError>
        ensures { IfOk result (λ m. taken m self.new.ops self.new.out.items ≡ start x p self.old.ops self.old.out.items) }
    {
        match x {
            WordKind::Semicolon => match self.ops.pop() {
                Some(op) => self.go_on(Step::Gap, op),
                None => Ok(None),
            },
            WordKind::CloseBracket => match self.ops.pop() {
                Some(op) => self.end_list(Step::Gap, op),
                None => Ok(None),
            },
            _ => self.want(x, p),
        }
    }

    /// A number behind an operand.
    fn more(&mut self, target: Target, v: i64) -> Result<Option<Mode>, AllocError>
        ensures { IfOk result (λ m. taken m self.new.ops self.new.out.items ≡ more target v self.old.ops self.old.out.items) }
    {
        match target {
            Target::Numbers => self.send(Step::More(v), Mode::After(Target::Numbers)),
            _ => Ok(None),
        }
    }

    /// An arrow behind an operand.
    fn arrow(&mut self, target: Target) -> Result<Option<Mode>, AllocError>
        ensures { IfOk result (λ m. taken m self.new.ops self.new.out.items ≡ arrow target self.old.ops self.old.out.items) }
    {
        match target {
            Target::Name => self.wait(Step::Assign),
            Target::At => self.wait(Step::AssignAt),
            _ => Ok(None),
        }
    }

    /// A procedure behind an operand.
    fn perform(&mut self, p: u32, n: u32) -> Result<Option<Mode>, AllocError>
        ensures { IfOk result (λ m. taken m self.new.ops self.new.out.items ≡ perform p n self.old.ops self.old.out.items) }
    {
        match self.ops.pop() {
            None => self.wait(Step::Perform2(p, n)),
            Some(_) => Ok(None),
        }
    }

    /// A word behind an operand.
    fn after(&mut self, x: WordKind, p: u32, target: Target) -> Result<Option<Mode>, AllocError>
        ensures { IfOk result (λ m. taken m self.new.ops self.new.out.items ≡ after x p target self.old.ops self.old.out.items) }
    {
        match x {
            WordKind::Number(v) => self.more(target, v),
            WordKind::Arith(f) => Ok(Some(Mode::Scalar2(p, f))),
            WordKind::Compare(f) => Ok(Some(Mode::Scalar2(p, f))),
            WordKind::Both(f) => self.wait(Step::Dyad(p, f)),
            WordKind::Dyadic(f) => self.wait(Step::Dyad(p, f)),
            WordKind::Turn(axis) => Ok(Some(Mode::Along(Along::Turn2(p), axis))),
            WordKind::Stroke(stroke, axis) => Ok(Some(Mode::Along(Along::Copies(p, stroke), axis))),
            WordKind::Jot => Ok(Some(Mode::Jot(p))),
            WordKind::Name(Role::Function(Arity::Dyadic), n) => self.wait(Step::Call2(p, n)),
            WordKind::Name(Role::Procedure(Arity::Dyadic), n) => self.perform(p, n),
            WordKind::Close => self.close_paren(),
            WordKind::OpenBracket => {
                self.put(Step::List)?;
                self.ops.push(Waiting::Bracket(p, inner(target)))?;
                Ok(Some(Mode::Start))
            }
            WordKind::CloseBracket => self.close_bracket(),
            WordKind::Semicolon => self.next_entry(),
            WordKind::Assign => self.arrow(target),
            _ => Ok(None),
        }
    }

    /// One word more.
    fn step(&mut self, mode: Mode, x: WordKind, q: u32) -> Result<Option<Mode>, AllocError>
        ensures { IfOk result (λ m. taken m self.new.ops self.new.out.items ≡ step mode x q self.old.ops self.old.out.items) }
    {
        match mode {
            Mode::Begin => self.begin(x, q),
            Mode::Want => self.want(x, q),
            Mode::Start => self.start(x, q),
            Mode::After(target) => self.after(x, q, target),
            Mode::Must => match x {
                WordKind::Assign => self.wait(Step::AssignAt),
                _ => Ok(None),
            },
            Mode::Fun(p, n) => self.applied(Step::Call1(p, n), x, q, p, n),
            Mode::Only(p, n) => self.only(x, q, p, n),
            Mode::Proc0(p, n) => self.only(x, q, p, n),
            Mode::Proc1(p, n) => self.applied(Step::Perform1(p, n), x, q, p, n),
            Mode::Scalar(p, f) => self.scalar(x, q, p, f),
            Mode::Compare(p, f) => match x {
                WordKind::Stroke(stroke, axis) => Ok(Some(Mode::Along(
                    Along::Reduce(p, f, stroke),
                    axis,
                ))),
                _ => Ok(None),
            },
            Mode::Scalar2(p, f) => self.dotted(x, q, p, f),
            Mode::Dot(p, f) => self.product(x, p, f),
            Mode::Jot(p) => match x {
                WordKind::Dot => Ok(Some(Mode::JotDot(p))),
                _ => Ok(None),
            },
            Mode::JotDot(p) => self.pairs(x, p),
            Mode::Along(function, axis) => self.named_axis(x, q, function, axis),
            Mode::Axis(function) => match x {
                WordKind::Number(v) => Ok(Some(Mode::Axed(function, v))),
                _ => Ok(None),
            },
            Mode::Axed(function, v) => self.axis_end(x, function, v),
            Mode::Quad(p) => match x {
                WordKind::Assign => self.wait(Step::Show(p)),
                _ => Ok(None),
            },
        }
    }

    /// The end of a statement: whether all is read.
    fn finish(&mut self, mode: Mode) -> Result<bool, AllocError>
        ensures { IfOk result (λ b. pending b self.new.out.items ≡ finish_in mode self.old.ops self.old.out.items) }
    {
        match mode {
            Mode::After(_) => match self.flush()? {
                None => Ok(true),
                Some(_) => Ok(false),
            },
            Mode::Proc0(p, n) => {
                self.put(Step::Perform0(p, n))?;
                match self.ops.pop() {
                    None => Ok(true),
                    Some(_) => Ok(false),
                }
            }
            _ => Ok(false),
        }
    }
}

#[tactic(auto, unfolding(crate::specs::Reading::reads))]
fn read_all(alloc: Global, words: &[Word]) -> Result<Option<Vec<Step>>, AllocError>
    ensures { IfOk result (λ o. items_of o ≡ reads words.now) }
{
    let mut reader = Reader {
        ops: Stack::new(alloc),
        out: Vec::new(alloc),
    };
    let mut mode = Mode::Begin;
    for word in words {
        match reader.step(mode, word.kind, word.place)? {
            Some(next) => mode = next,
            None => return Ok(None),
        }
    }
    if reader.finish(mode)? {
        let Reader { ops: _, out } = reader;
        Ok(Some(out))
    } else {
        Ok(None)
    }
}

/// The steps of building that a statement stands for, or `None` where the words are no statement.
pub fn read(alloc: Global, words: &[Word]) -> Result<Option<Vec<Step>>, AllocError>
    ensures found { IfOk result (λ o. IfSome o (λ v. IsReading words.now v.items)) }
    ensures none { IfOk result (λ o. IfNone o ((x : Sentence) → words.now ≡ spell x → ⊥)) }
{
    read_all(alloc, words)
}
