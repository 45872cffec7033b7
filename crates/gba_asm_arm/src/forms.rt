//! The forms of ARM statements: what a name says with its operands.

ghost use Rattle.std.specs.Prelude.{◌≡◌};
ghost use Rattle.gba_text.specs.Answers.{Agrees};
ghost use Rattle.gba_asm_arm.specs.Forms.{access_form, accumulate_form, arm_statement as arm_statement_of, block_form, branch_form, compare_form, compute_form as compute_form_of, exchange_form, form_of, half_form, interrupt_form, is_at_target as is_at_target_of, load_form, long_form, move_form, multiply_form, read_status_form, swap_form, three_form, transfer_form, whole as whole_of, write_status_form};
ghost use Rattle.gba_asm_arm.specs.Statement.{statement_value};

use crate::names::{Mnemonic, arm_name};
use crate::operands::{take_next_second, take_saved, take_source, take_status};
use crate::statement::ArmStatement;
use crate::transfers::{half_transfer, take_address, transfer};
use gba_arm_table::{ArmOp, CompareOp, ComputeOp, Condition, HalfKind};
use gba_asm_words::{AsmKind, Tokens, list_at};

/// An operation that stands whole.
fn whole<'a>(op: Option<ArmOp>, tokens: &mut Tokens<'a>) -> Result<ArmStatement<'a>, AsmKind>
    ensures { Agrees statement_value result (whole_of op tokens.old) }
{
    tokens.end()?;
    Ok(ArmStatement::Operation(op))
}

/// MOV and MVN: `rd, OP`.
#[tactic(auto, unfolding(crate::specs::Forms::move_form))]
fn take_move<'a>(
    cond: Condition,
    op: ComputeOp,
    set: bool,
    tokens: &mut Tokens<'a>,
) -> Result<ArmStatement<'a>, AsmKind>
    ensures { Agrees statement_value result (move_form cond op set tokens.old) }
{
    let rd = tokens.register()?;
    let second = take_next_second(tokens)?;
    let op = second.map(|operand| {
        ArmOp::Compute {
            cond,
            op,
            set,
            rn: 0,
            rd,
            operand,
        }
    });
    whole(op, tokens)
}

/// The others that write a register: `rd, rn, OP`.
#[tactic(auto, unfolding(crate::specs::Forms::three_form))]
fn take_three<'a>(
    cond: Condition,
    op: ComputeOp,
    set: bool,
    tokens: &mut Tokens<'a>,
) -> Result<ArmStatement<'a>, AsmKind>
    ensures { Agrees statement_value result (three_form cond op set tokens.old) }
{
    let rd = tokens.register()?;
    let rn = tokens.next_register()?;
    let second = take_next_second(tokens)?;
    let op = second.map(|operand| {
        ArmOp::Compute {
            cond,
            op,
            set,
            rn,
            rd,
            operand,
        }
    });
    whole(op, tokens)
}

fn take_compute<'a>(
    cond: Condition,
    op: ComputeOp,
    set: bool,
    tokens: &mut Tokens<'a>,
) -> Result<ArmStatement<'a>, AsmKind>
    ensures { Agrees statement_value result (compute_form_of cond op set tokens.old) }
{
    match op {
        ComputeOp::Mov | ComputeOp::Mvn => take_move(cond, op, set, tokens),
        _ => take_three(cond, op, set, tokens),
    }
}

/// `rn, OP`.
#[tactic(auto, unfolding(crate::specs::Forms::compare_form))]
fn take_compare<'a>(
    cond: Condition,
    op: CompareOp,
    tokens: &mut Tokens<'a>,
) -> Result<ArmStatement<'a>, AsmKind>
    ensures { Agrees statement_value result (compare_form cond op tokens.old) }
{
    let rn = tokens.register()?;
    let second = take_next_second(tokens)?;
    let op = second.map(|operand| {
        ArmOp::Compare {
            cond,
            op,
            rn,
            operand,
        }
    });
    whole(op, tokens)
}

/// `rd, rm, rs`.
#[tactic(auto, unfolding(crate::specs::Forms::multiply_form))]
fn take_multiply<'a>(
    cond: Condition,
    set: bool,
    tokens: &mut Tokens<'a>,
) -> Result<ArmStatement<'a>, AsmKind>
    ensures { Agrees statement_value result (multiply_form cond set tokens.old) }
{
    let rd = tokens.register()?;
    let rm = tokens.next_register()?;
    let rs = tokens.next_register()?;
    let op = ArmOp::Multiply {
        cond,
        accumulate: false,
        set,
        rd,
        rn: 0,
        rs,
        rm,
    };
    whole(Some(op), tokens)
}

/// `rd, rm, rs, rn`.
#[tactic(auto, unfolding(crate::specs::Forms::accumulate_form))]
fn take_accumulate<'a>(
    cond: Condition,
    set: bool,
    tokens: &mut Tokens<'a>,
) -> Result<ArmStatement<'a>, AsmKind>
    ensures { Agrees statement_value result (accumulate_form cond set tokens.old) }
{
    let rd = tokens.register()?;
    let rm = tokens.next_register()?;
    let rs = tokens.next_register()?;
    let rn = tokens.next_register()?;
    let op = ArmOp::Multiply {
        cond,
        accumulate: true,
        set,
        rd,
        rn,
        rs,
        rm,
    };
    whole(Some(op), tokens)
}

/// `lo, hi, rm, rs`.
#[tactic(auto, unfolding(crate::specs::Forms::long_form))]
fn take_long<'a>(
    cond: Condition,
    signed: bool,
    accumulate: bool,
    set: bool,
    tokens: &mut Tokens<'a>,
) -> Result<ArmStatement<'a>, AsmKind>
    ensures { Agrees statement_value result (long_form cond signed accumulate set tokens.old) }
{
    let lo = tokens.register()?;
    let hi = tokens.next_register()?;
    let rm = tokens.next_register()?;
    let rs = tokens.next_register()?;
    let op = ArmOp::MultiplyLong {
        cond,
        signed,
        accumulate,
        set,
        hi,
        lo,
        rs,
        rm,
    };
    whole(Some(op), tokens)
}

/// LDR of the word at a target.
#[tactic(auto, unfolding(crate::specs::Forms::load_form))]
fn take_load<'a>(
    cond: Condition,
    rd: u8,
    tokens: &mut Tokens<'a>,
) -> Result<ArmStatement<'a>, AsmKind>
    ensures { Agrees statement_value result (load_form cond rd tokens.old) }
{
    let target = tokens.target()?;
    tokens.end()?;
    Ok(ArmStatement::Load { cond, rd, target })
}

/// An address. The forms with T take only those whose offset goes on after the access.
#[tactic(auto, unfolding(crate::specs::Forms::access_form))]
fn take_access<'a>(
    cond: Condition,
    load: bool,
    byte: bool,
    user: bool,
    rd: u8,
    tokens: &mut Tokens<'a>,
) -> Result<ArmStatement<'a>, AsmKind>
    ensures { Agrees statement_value result (access_form cond load byte user rd tokens.old) }
{
    let address = take_address(true, tokens)?;
    if user && address.pre {
        return Err(AsmKind::Operand);
    }
    whole(transfer(cond, load, byte, user, rd, address), tokens)
}

fn is_at_target(load: bool, byte: bool, user: bool, tokens: &Tokens<'_>) -> bool
    ensures { result ≡ is_at_target_of load byte user tokens.now }
{
    load && !byte && !user && !tokens.begins(b'[')
}

/// `rd, ADDRESS`, and of LDR `rd, TARGET`.
#[tactic(auto, unfolding(crate::specs::Forms::transfer_form))]
fn take_transfer<'a>(
    cond: Condition,
    load: bool,
    byte: bool,
    user: bool,
    tokens: &mut Tokens<'a>,
) -> Result<ArmStatement<'a>, AsmKind>
    ensures { Agrees statement_value result (transfer_form cond load byte user tokens.old) }
{
    let rd = tokens.register()?;
    tokens.mark(b',')?;
    if is_at_target(load, byte, user, tokens) {
        return take_load(cond, rd, tokens);
    }
    take_access(cond, load, byte, user, rd, tokens)
}

/// `rd, ADDRESS` without a shift.
#[tactic(auto, unfolding(crate::specs::Forms::half_form))]
fn take_half<'a>(
    cond: Condition,
    kind: HalfKind,
    tokens: &mut Tokens<'a>,
) -> Result<ArmStatement<'a>, AsmKind>
    ensures { Agrees statement_value result (half_form cond kind tokens.old) }
{
    let rd = tokens.register()?;
    tokens.mark(b',')?;
    let address = take_address(false, tokens)?;
    whole(half_transfer(cond, kind, rd, address), tokens)
}

/// `rn, {LIST}`, with `!` after rn and `^` at the end as may be.
#[tactic(auto, unfolding(crate::specs::Forms::block_form))]
fn take_block<'a>(
    cond: Condition,
    load: bool,
    pre: bool,
    up: bool,
    tokens: &mut Tokens<'a>,
) -> Result<ArmStatement<'a>, AsmKind>
    ensures { Agrees statement_value result (block_form cond load pre up tokens.old) }
{
    let rn = tokens.register()?;
    let write = tokens.takes(b'!');
    tokens.mark(b',')?;
    let list = list_at(tokens)?;
    let user = tokens.takes(b'^');
    let op = ArmOp::Block {
        cond,
        load,
        pre,
        up,
        user,
        write,
        rn,
        list,
    };
    whole(Some(op), tokens)
}

/// `rd, rm, [rn]`.
#[tactic(auto, unfolding(crate::specs::Forms::swap_form))]
fn take_swap<'a>(
    cond: Condition,
    byte: bool,
    tokens: &mut Tokens<'a>,
) -> Result<ArmStatement<'a>, AsmKind>
    ensures { Agrees statement_value result (swap_form cond byte tokens.old) }
{
    let rd = tokens.register()?;
    let rm = tokens.next_register()?;
    tokens.mark(b',')?;
    tokens.mark(b'[')?;
    let rn = tokens.register()?;
    tokens.mark(b']')?;
    let op = ArmOp::Swap {
        cond,
        byte,
        rn,
        rd,
        rm,
    };
    whole(Some(op), tokens)
}

/// `rd, cpsr`.
#[tactic(auto, unfolding(crate::specs::Forms::read_status_form))]
fn take_read_status<'a>(
    cond: Condition,
    tokens: &mut Tokens<'a>,
) -> Result<ArmStatement<'a>, AsmKind>
    ensures { Agrees statement_value result (read_status_form cond tokens.old) }
{
    let rd = tokens.register()?;
    tokens.mark(b',')?;
    let saved = take_saved(tokens)?;
    whole(Some(ArmOp::ReadStatus { cond, saved, rd }), tokens)
}

/// `cpsr_F, rm` and `cpsr_F, #N`.
#[tactic(auto, unfolding(crate::specs::Forms::write_status_form))]
fn take_write_status<'a>(
    cond: Condition,
    tokens: &mut Tokens<'a>,
) -> Result<ArmStatement<'a>, AsmKind>
    ensures { Agrees statement_value result (write_status_form cond tokens.old) }
{
    let status = take_status(tokens)?;
    tokens.mark(b',')?;
    let source = take_source(tokens)?;
    let op = source.map(|source| {
        ArmOp::WriteStatus {
            cond,
            saved: status.saved,
            fields: status.fields,
            source,
        }
    });
    whole(op, tokens)
}

/// `#N`.
#[tactic(auto, unfolding(crate::specs::Forms::interrupt_form))]
fn take_interrupt<'a>(cond: Condition, tokens: &mut Tokens<'a>) -> Result<ArmStatement<'a>, AsmKind>
    ensures { Agrees statement_value result (interrupt_form cond tokens.old) }
{
    let comment = tokens.immediate()?;
    whole(Some(ArmOp::Interrupt { cond, comment }), tokens)
}

/// `TARGET`.
#[tactic(auto, unfolding(crate::specs::Forms::branch_form))]
fn take_branch<'a>(
    cond: Condition,
    link: bool,
    tokens: &mut Tokens<'a>,
) -> Result<ArmStatement<'a>, AsmKind>
    ensures { Agrees statement_value result (branch_form cond link tokens.old) }
{
    let target = tokens.target()?;
    tokens.end()?;
    Ok(ArmStatement::Branch { cond, link, target })
}

/// `rm`.
#[tactic(auto, unfolding(crate::specs::Forms::exchange_form))]
fn take_exchange<'a>(cond: Condition, tokens: &mut Tokens<'a>) -> Result<ArmStatement<'a>, AsmKind>
    ensures { Agrees statement_value result (exchange_form cond tokens.old) }
{
    let rm = tokens.register()?;
    whole(Some(ArmOp::Exchange { cond, rm }), tokens)
}

/// The form of each name.
#[tactic(auto, unfolding(crate::specs::Forms::form_of))]
fn take_form<'a>(
    cond: Condition,
    mnemonic: Mnemonic,
    tokens: &mut Tokens<'a>,
) -> Result<ArmStatement<'a>, AsmKind>
    ensures { Agrees statement_value result (form_of cond mnemonic tokens.old) }
{
    match mnemonic {
        Mnemonic::Compute { op, set } => take_compute(cond, op, set, tokens),
        Mnemonic::Compare { op } => take_compare(cond, op, tokens),
        Mnemonic::Multiply {
            accumulate: false,
            set,
        } => take_multiply(cond, set, tokens),
        Mnemonic::Multiply {
            accumulate: true,
            set,
        } => take_accumulate(cond, set, tokens),
        Mnemonic::MultiplyLong {
            signed,
            accumulate,
            set,
        } => take_long(cond, signed, accumulate, set, tokens),
        Mnemonic::Transfer { load, byte, user } => take_transfer(cond, load, byte, user, tokens),
        Mnemonic::Half { kind } => take_half(cond, kind, tokens),
        Mnemonic::Block { load, pre, up } => take_block(cond, load, pre, up, tokens),
        Mnemonic::Swap { byte } => take_swap(cond, byte, tokens),
        Mnemonic::ReadStatus => take_read_status(cond, tokens),
        Mnemonic::WriteStatus => take_write_status(cond, tokens),
        Mnemonic::Interrupt => take_interrupt(cond, tokens),
        Mnemonic::Branch { link } => take_branch(cond, link, tokens),
        Mnemonic::Exchange => take_exchange(cond, tokens),
    }
}

/// What an ARM statement's name says with the tokens after it. Refused is a name that no statement has (`Unknown`), and
/// then operands that aren't one of its forms (`Operand`).
#[tactic(auto, unfolding(crate::specs::Forms::arm_statement))]
pub fn arm_statement<'a>(word: &[u8], tokens: &mut Tokens<'a>) -> Result<ArmStatement<'a>, AsmKind>
    ensures { Agrees statement_value result (arm_statement_of word.now tokens.old) }
{
    match arm_name(word) {
        Some(name) => take_form(name.cond, name.mnemonic, tokens),
        None => Err(AsmKind::Unknown),
    }
}
