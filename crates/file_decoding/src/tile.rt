//! The places that are read together: columns of one row, each with the bands of a group.

ghost use Rattle.std.specs.Prelude.{◌≡◌, ◌≢◌, ◌+◌, ◌*◌, ◌^◌, ◌<◌, ◌≤◌, ℕ, List, length, slice_index, slice_index_or};
ghost use Rattle.cube_core.specs.Image.{Image};
ghost use Rattle.cube_core.specs.Order.{IsPlaceOf};
ghost use Rattle.cube_core.specs.Tiles.{most_bands as bands_of_group};
ghost use Rattle.header_bits.specs.Lawful.{IsLawful};
ghost use Rattle.file_decoding.specs.Decoding.{MayAskEach, GivesEach};
ghost use Rattle.predict_core.specs.Precedence.{AreAlike};
ghost use Rattle.file_decoding.specs.Tiles.{IsTile, HasStored, band_in, time_in, number_in};

use crate::decoder::EntropyDecoder;
use crate::eight_bands::EIGHT;
use cube_core::cube::Cube;
use cube_core::fault::Fault;
use cube_core::order::{Order, Place};
use header_bits::bit_reader::BitReader;
use header_bits::params::Params;

/// The greatest number of columns of a tile.
pub(crate) const COLUMNS: usize = 64;

/// Places that follow one another in encoding order, from `place` on: so many columns of one row, each with so many
/// bands.
///
/// Residuals are read in encoding order, and stored band after band, along the row of each.
#[derive(Clone, Copy)]
pub(crate) struct Tile {
    pub(crate) place: Place,
    pub(crate) columns: usize,
    pub(crate) bands: usize,
}

/// Returns how many bands the largest group of an order has.
pub(crate) fn most_bands(order: Order) -> u32
    ensures { result ≡ bands_of_group order }
{
    match order {
        Order::Bsq => 1,
        Order::Bi(depth) => depth,
    }
}

impl Tile {
    /// Returns the places that come next: up to 64 columns of a group of bands, or the rest of a column that is begun.
    pub(crate) fn at(params: &Params, place: Place) -> Tile
        requires lawful { IsLawful params.now }
        requires place { IsPlaceOf params.now.shape place }
        ensures place { result.place ≡ place }
        ensures tile { IsTile params.now result }
    {
        let depth = most_bands(params.order);
        let first = place.z / depth * depth;
        let end = params.shape.bands().min(first + depth);
        let rest = (params.shape.columns() - place.x) as usize;
        Tile {
            place,
            columns: if place.z == first {
                COLUMNS.min(rest)
            } else {
                1
            },
            bands: (end - place.z) as usize,
        }
    }

    /// Returns how many places these are.
    pub(crate) fn count(&self) -> usize
        requires { (self.now.columns ≤ 64) × (self.now.bands ≤ 2 ^ 16) }
        ensures { result ≡ self.now.columns * self.now.bands }
    {
        self.columns * self.bands
    }

    /// Reads the residuals of these places, in encoding order.
    ///
    /// The first is number `t` of its band, and is at `index` in encoding order. Where the bits encode fewer,
    /// it returns the first fault of the body, and what is in `deltas` is unspecified.
    pub(crate) fn read(
        &self,
        decoder: &mut EntropyDecoder,
        t: u64,
        index: u64,
        reader: &mut BitReader,
        deltas: &mut [u16],
    ) -> Result<(), Fault>
        requires some { (1 ≤ self.now.columns) × (1 ≤ self.now.bands) }
        requires few { (self.now.columns ≤ 64) × (self.now.bands ≤ 2 ^ 16) }
        requires small { (t < 2 ^ 48) × (index + length deltas.old ≤ 2 ^ 48) }
        requires whole { length deltas.old ≡ self.now.columns * self.now.bands }
        requires may { MayAskEach decoder.old (band_in self.now) (time_in self.now t) index (length deltas.old) }
        ensures given { GivesEach (band_in self.now) (time_in self.now t) index result decoder.old reader.old decoder.new reader.new.left deltas.new }
        ensures count { reader.new.count ≡ reader.old.count }
        ensures long { length deltas.new ≡ length deltas.old }
    {
        if self.bands == 1 {
            return decoder.next_run(self.place.z, t, index, reader, deltas);
        }
        for i in 0..self.columns {
            let first = i * self.bands;
            let column = &mut deltas[first..first + self.bands];
            decoder.next_column(
                self.place.z,
                t + i as u64,
                index + first as u64,
                reader,
                column,
            )?;
        }
        Ok(())
    }

    /// Stores a number below 2^D at each of these places, as an offset from the least sample. The numbers come in encoding order.
    ///
    /// No other sample changes.
    pub(crate) fn store(&self, cube: &mut Cube, numbers: &[u16])
        requires few { (self.now.columns ≤ 64) × (self.now.bands ≤ 2 ^ 16) }
        requires columns { self.now.place.x + self.now.columns ≤ cube.old.shape.columns }
        requires place { IsPlaceOf cube.old.shape self.now.place }
        requires inside { self.now.place.z + self.now.bands ≤ cube.old.shape.bands }
        requires whole { length numbers.now ≡ self.now.columns * self.now.bands }
        requires numbers_in { (k : ℕ) → k < length numbers.now → slice_index numbers.now k < 2 ^ cube.old.kind.bits }
        ensures { HasStored cube.old cube.new self.now numbers.now self.now.bands }
    {
        cube.prove_is_cube();
        let Place { z, y, x } = self.place;
        if self.bands == 1 {
            cube.set_run(z, y, x, numbers);
            return;
        }
        let mut eight = [[0; COLUMNS]; EIGHT];
        let mut b = 0;
        while b < self.bands {
            if b + EIGHT <= self.bands {
                self.turn_eight(numbers, b, &mut eight);
                self.store_eight(cube, b, &eight);
                b += EIGHT;
            } else {
                let run = self.run_of(numbers, b);
                cube.set_run(z + b as u32, y, x, &run[..self.columns]);
                b += 1;
            }
        }
    }

    /// Returns the residuals of a band of the tile, column after column, followed by zeros.
    fn run_of(&self, deltas: &[u16], band: usize) -> [u16; 64]
        requires few { self.now.columns ≤ 64 }
        requires band { band < self.now.bands }
        requires whole { length deltas.now ≡ self.now.columns * self.now.bands }
        ensures long { length result ≡ 64 }
        ensures copied { (i : ℕ) → i < self.now.columns → slice_index result i ≡ slice_index deltas.now (i * self.now.bands + band) }
    {
        let mut run = [0; COLUMNS];
        for i in 0..self.columns {
            run[i] = deltas[i * self.bands + band];
        }
        run
    }
}
