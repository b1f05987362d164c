//! Fields, rules, rooms and members by their numbers.

use crate::refusal::{Member, Room};
use cube_core::fault::{Field, Rule};

/// Returns the field with a number, counted from 1.
pub(crate) fn field_of(number: u32) -> Option<Field> {
    let field = match number {
        1 => Field::Columns,
        2 => Field::Rows,
        3 => Field::Bands,
        4 => Field::DynamicRange,
        5 => Field::User,
        6 => Field::Depth,
        7 => Field::WordSize,
        8 => Field::Previous,
        9 => Field::Register,
        10 => Field::Omega,
        11 => Field::Interval,
        12 => Field::VMin,
        13 => Field::VMax,
        14 => Field::WeightStart,
        15 => Field::Resolution,
        16 => Field::WeightEntry,
        17 => Field::Umax,
        18 => Field::GammaStar,
        19 => Field::GammaZero,
        20 => Field::AccumulatorTable,
        21 => Field::BlockSize,
        22 => Field::Restricted,
        23 => Field::Reference,
        24 => Field::Predictors,
        25 => Field::Slots,
        _ => return None,
    };
    Some(field)
}

/// Returns the rule with a number, counted from 1.
pub(crate) fn rule_of(number: u32) -> Option<Rule> {
    let rule = match number {
        1 => Rule::DepthOverBands,
        2 => Rule::FullOneColumn,
        3 => Rule::NeighbourOneColumn,
        4 => Rule::RegisterTooSmall,
        5 => Rule::ExponentOrder,
        6 => Rule::DefaultWithTable,
        7 => Rule::DefaultWithResolution,
        8 => Rule::ResolutionOverOmega,
        9 => Rule::WeightTableLength,
        10 => Rule::CounterOrder,
        11 => Rule::StartConstant,
        12 => Rule::ConstantWithTable,
        13 => Rule::AccumulatorTableLength,
        14 => Rule::AccumulatorEntry,
        15 => Rule::RestrictedOverFour,
        _ => return None,
    };
    Some(rule)
}

/// Returns the room with a number, counted from 1.
pub(crate) fn room_of(number: u32) -> Option<Room> {
    match number {
        1 => Some(Room::File),
        2 => Some(Room::Raw),
        3 => Some(Room::Weights),
        4 => Some(Room::Accumulators),
        _ => None,
    }
}

/// Returns the member with a number, counted from 1.
pub(crate) fn member_of(number: u32) -> Option<Member> {
    match number {
        1 => Some(Member::Order),
        2 => Some(Member::Coder),
        3 => Some(Member::Interleave),
        4 => Some(Member::Bytes),
        _ => None,
    }
}
