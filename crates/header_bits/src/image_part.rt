//! The image part of a header, twelve bytes.

ghost use Rattle.std.specs.Prelude.{◌≡◌, ◌==◌, if◌then◌else◌};
ghost use Rattle.cube_core.specs.declared.order.Order.TheVariants.{Bsq, Bi};
ghost use Rattle.header_bits.specs.Reading.{Reads};
ghost use Rattle.header_bits.specs.Layout.{AreValues};
ghost use Rattle.header_bits.specs.Parts.{fine, part_at};
ghost use Rattle.header_bits.specs.ImagePart.{image, image_fields, image_tests, image_contents, flag, order_flag, depth_number, image_numbers};
ghost use Rattle.header_bits.specs.Header.{image_part_of};

use crate::bit_reader::BitReader;
use crate::fields::{self, IMAGE_FIELDS, check_reserved_field, image_end, image_row};
use crate::layout::read_values;
use crate::params::{Coder, Params};
use crate::refusal::{disagree_if, out_of_range_if};
use cube_core::fault::{Fault, Field, Rule};
use cube_core::kind::Kind;
use cube_core::order::Order;
use cube_core::shape::Shape;

/// The contents of the image part (CCSDS 123.0-B-1, "Image metadata").
#[derive(Clone, Copy)]
pub(crate) struct ImagePart {
    pub user: u32,
    pub shape: Shape,
    pub kind: Kind,
    pub order: Order,
    pub word: u32,
    /// Whether the coder is the block-adaptive one.
    pub block: bool,
}

impl ImagePart {
    /// Reads the image part from the front of a header.
    pub(crate) fn read(reader: &mut BitReader) -> Result<ImagePart, Fault>
        ensures { Reads (λ x. x) result reader.new.left (part_at image reader.old.left) }
    {
        if reader.left() < image_end() {
            return Err(Fault::ShortHeader);
        }
        let mut numbers = [0; IMAGE_FIELDS];
        read_values(&image_row!(), reader, &mut numbers);
        test(&numbers)?;
        Ok(part_of(&numbers))
    }

    /// The image part of parameters.
    pub(crate) fn of(params: &Params) -> ImagePart
        ensures { result ≡ image_part_of params.now }
    {
        ImagePart {
            user: params.user,
            shape: params.shape,
            kind: params.kind,
            order: params.order,
            word: params.word,
            block: matches!(params.coder, Coder::Block { .. }),
        }
    }

    /// The numbers for the slots.
    pub(crate) fn numbers(&self) -> [u32; IMAGE_FIELDS]
        ensures { result ≡ image_numbers self.now }
    {
        let reserved = 0;
        [
            self.user,
            self.shape.columns(),
            self.shape.rows(),
            self.shape.bands(),
            u32::from(self.kind.is_signed()),
            reserved,
            self.kind.bits(),
            order_bit(self.order),
            depth_number(self.order),
            reserved,
            self.word,
            u32::from(self.block),
            reserved,
        ]
    }
}

/// Returns the bit that stands for an order.
fn order_bit(order: Order) -> u32
    ensures { result ≡ order_flag order }
{
    match order {
        Order::Bsq => 1,
        Order::Bi(_) => 0,
    }
}

/// Returns the depth of an order, or the number that is written as zeros.
fn depth_number(order: Order) -> u32
    ensures { result ≡ depth_number order }
{
    match order {
        Order::Bsq => 65_536,
        Order::Bi(depth) => depth,
    }
}

/// Returns the order that a bit stands for, with its depth.
fn order_of(bit: u32, depth: u32) -> Order
    ensures { result ≡ (if bit == 0 then Bi depth else Bsq) }
{
    if bit == 0 {
        Order::Bi(depth)
    } else {
        Order::Bsq
    }
}

/// Tests the numbers of the image part, in order.
#[tactic(auto, unfolding(crate::specs::Layout::total))]
fn test(numbers: &[u32; IMAGE_FIELDS]) -> Result<(), Fault>
    ensures { result ≡ image_tests numbers.now }
{
    let [_, _, _, bands, _, _, bits, order, depth, ..] = *numbers;
    check_reserved_field(0, &image_row!(), fields::AFTER_SIGNED.index, numbers)?;
    out_of_range_if(bits == 1, Field::DynamicRange, 1)?;
    disagree_if((order == 0) & (bands < depth), Rule::DepthOverBands)?;
    check_reserved_field(0, &image_row!(), fields::AFTER_DEPTH.index, numbers)?;
    check_reserved_field(0, &image_row!(), fields::AFTER_CODER.index, numbers)
}

/// Returns the image part that the numbers stand for.
fn part_of(numbers: &[u32; IMAGE_FIELDS]) -> ImagePart
    requires held { AreValues image_fields numbers.now }
    requires passed { image_tests numbers.now ≡ fine }
    ensures { result ≡ image_contents numbers.now }
{
    let [
        user,
        columns,
        rows,
        bands,
        signed,
        _,
        bits,
        order,
        depth,
        _,
        word,
        coder,
        _,
    ] = *numbers;
    ImagePart {
        user,
        shape: Shape::new(columns, rows, bands).unwrap(),
        kind: Kind::new(signed == 1, bits).unwrap(),
        order: order_of(order, depth),
        word,
        block: coder == 1,
    }
}
