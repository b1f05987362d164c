//! The worked files, one in each row: name, parameters, samples, header and body.
//!
//! Parameters and header list what differs from the common ones, each changed byte of the header after its number,
//! counted from 0. Samples stand band after band; `48*128` stands for 48 samples of 128. Their raw bytes are one for each
//! sample, or two with `bytes=2`.

/// Files of few samples.
pub(super) const SMALL_ROWS: &str = "\
one sample | | 200 | | 90
two equal samples | rows=2 | 200 200 | 4:02 | 90 80
two columns | columns=2 | 200 190 | 2:02 | 90 30
a signed sample of 16 bits | signed=1 bits=16 bytes=2 | -32768 | 7:81 | ff ff
two bands, each from the middle | bands=2 | 200 201 | 6:02 | 90 92
the second band from the first | bands=2 previous=1 | 200 201 | 6:02 12:06 | 90 02";

/// Weights, escapes, registers and output words.
pub(super) const REGISTER_ROWS: &str = "\
coarse weights | rows=3 bands=2 previous=1 omega=4 vmin=-4 vmax=-4 | 100 102 110 100 100 105 | 4:03 6:02 12:06 14:02 15:22 | 37 b7 80 5c 00
an escape | rows=2 umax=8 constant=0 | 200 210 | 4:02 17:42 18:20 | 90 00 13
a register that wraps | rows=2 bands=2 bits=11 previous=1 omega=19 | 4 0 0 0 | 4:02 6:02 7:17 12:06 14:f2 | fe e8 00 e0 00 1f fc
a register that is wide | rows=2 bands=2 bits=11 previous=1 omega=19 register=64 | 4 0 0 0 | 4:02 6:02 7:17 12:06 13:80 14:f2 | fe e8 00 f0
output words of four bytes | rows=2 word=4 | 200 200 | 4:02 10:20 | 90 80 00 00 00";

/// Weights, their steps and their bounds.
pub(super) const WEIGHT_ROWS: &str = "\
weights that start at the second sample | rows=2 bands=3 previous=2 omega=4 | 255 0 232 255 0 11 | 4:02 6:03 12:0a 14:02 | fe 00 00 ff 17 00 00 ff ff 58
an error of zero | rows=3 bands=2 previous=1 omega=4 vmin=-6 vmax=-6 | 255 225 0 0 0 0 | 4:03 6:02 12:06 14:02 15:00 | fe 1c 00 03 ff f0 00 01 fe
the greatest weight | rows=3 bands=2 previous=1 omega=4 vmin=-6 vmax=-6 | 156 184 198 194 205 151 | 4:03 6:02 12:06 14:02 15:00 | 38 03 db 4c 17 30
the greatest prediction | rows=3 bands=2 previous=1 omega=4 vmin=-6 vmax=-6 | 79 255 73 228 255 106 | 4:03 6:02 12:06 14:02 15:00 | 61 00 00 ff 3b 72 40 00 04 a8";

/// An exponent that grows, and cube A in each order.
pub(super) const CUBE_A_ROWS: &str = "\
an exponent that grows | columns=8 rows=3 bands=2 previous=1 omega=4 interval_log=4 vmin=-6 vmax=9 | 174 86 0 255 112 \
    156 0 0 255 255 0 255 255 255 255 0 255 106 0 0 0 237 255 81 154 255 255 255 97 82 255 255 215 144 0 247 255 255 216 \
    255 255 255 130 255 255 255 255 255 | 2:08 4:03 6:02 12:06 14:00 15:0f | 5c 00 00 a9 36 0f e4 f5 71 fe 01 84 7f 81 00 \
    7f 11 47 f8 10 0a b0 07 f1 fe 94 05 12 70 00 0f f8 10 03 e3 6c 08 1a 0a 03 fc 88 03 fe 78 09 f0 08 43 fc 02 6a 68 fe
cube A | columns=3 rows=2 bands=2 previous=1 reduced=0 | 100 102 105 101 104 103 110 111 115 112 113 114 | 2:03 4:02 6:02 12:04 13:20 | 37 bd 84 c2 93 5a e0
cube A, interleaved by line | columns=3 rows=2 bands=2 previous=1 reduced=0 depth=1 | 100 102 105 101 104 103 110 111 \
    115 112 113 114 | 2:03 4:02 6:02 7:10 9:01 12:04 13:20 | 37 bd 14 9a 84 da e0
cube A, interleaved by pixel | columns=3 rows=2 bands=2 previous=1 reduced=0 depth=2 | 100 102 105 101 104 103 110 111 \
    115 112 113 114 | 2:03 4:02 6:02 7:10 9:02 12:04 13:20 | 37 14 b9 da 8c 97 60";

/// Blocks under their code options.
pub(super) const BLOCK_ROWS: &str = "\
cube A in blocks | columns=3 rows=2 bands=2 previous=1 reduced=0 reference=1 | 100 102 105 101 104 103 110 111 115 112 \
    113 114 | 2:03 4:02 6:02 10:0c 12:04 13:20 17:00 18:01 | 80 7e 7d d1 14 24 94 f8
one sample in a block | reference=1 | 200 | 10:0c 17:00 18:01 | a0 0f f0 00 00 00 00
a zero block | reference=1 | 128 | 10:0c 17:00 18:01 | 08
four bits | bits=4 reference=1 | 9 | 7:09 10:0c 17:00 18:01 | 11 e0";

/// Zero-block runs.
pub(super) const RUN_ROWS: &str = "\
zero blocks to the image's end | rows=48 reference=8 | 48*128 | 4:30 10:0c 17:00 18:08 | 00 80
four zero blocks | rows=32 reference=8 | 32*128 | 4:20 10:0c 17:00 18:08 | 01
a run up to the reference border | rows=48 reference=4 | 48*128 | 4:30 10:0c 17:00 18:04 | 01 04";

/// Zero-block runs over whole segments.
pub(super) const SEGMENT_ROWS: &str = "\
a run of 64 blocks | rows=1040 reference=4096 | 1040*128 | 3:04 4:10 10:0c 17:00 18:00 | 00 80 41
segments from each reference border | rows=1040 reference=65 | 1040*128 | 3:04 4:10 10:0c 17:00 18:41 | 00 84 02 10";

/// Weight tables and accumulator tables.
pub(super) const TABLE_ROWS: &str = "\
a table of no weights | resolution=3 | 200 | 16:63 | 90
one weight | rows=2 bands=2 previous=1 resolution=3 weights=-1 | 100 110 50 60 | 4:02 6:02 12:06 16:63 17+e0 | 37 2d 8c 70
a coarse weight | rows=2 bands=2 previous=1 omega=4 resolution=3 weights=-1 | 255 242 176 255 | 4:02 6:02 12:06 14:02 16:63 17+e0 | fe 6a 78 00 04 78
a weight in its whole resolution | rows=2 bands=2 previous=1 omega=4 resolution=7 weights=-22 | 31 0 0 0 | 4:02 6:02 12:06 14:02 16:67 17+d4 | c1 01 c7 a0 06 80
one constant | rows=2 constants=3 | 200 200 | 4:02 18:3f 19+30 | 90 80
two constants | rows=2 bands=2 constants=3,0 | 200 200 128 128 | 4:02 6:02 18:3f 19+30 | 90 80 08";

/// The restricted set of code options.
pub(super) const RESTRICTED_ROWS: &str = "\
four bits, restricted | bits=4 reference=1 restricted=1 | 9 | 7:09 10:0c 17:10 18:01 | 23 c0
a zero block of two bits | bits=2 reference=1 restricted=1 | 2 | 7:05 10:0c 17:10 18:01 | 20
a pair of 2 and 0 | bits=2 reference=1 restricted=1 | 3 | 7:05 10:0c 17:10 18:01 | 47 80
a pair of 3 and 0 | bits=2 reference=1 restricted=1 | 0 | 7:05 10:0c 17:10 18:01 | 40 f0";
