// Where the scale factor bands start, a row for each rate.
ghost use Rattle.std.specs.Prelude.{◌≡◌};
ghost use Rattle.standard.specs.Bands.{row_of, long_start, short_start};

use standard::SampleRate;

static LONG: [[u16; 23]; 9] = [
    [
        0, 4, 8, 12, 16, 20, 24, 30, 36, 44, 52, 62, 74, 90, 110, 134, 162, 196, 238, 288, 342,
        418, 576,
    ],
    [
        0, 4, 8, 12, 16, 20, 24, 30, 36, 42, 50, 60, 72, 88, 106, 128, 156, 190, 230, 276, 330,
        384, 576,
    ],
    [
        0, 4, 8, 12, 16, 20, 24, 30, 36, 44, 54, 66, 82, 102, 126, 156, 194, 240, 296, 364, 448,
        550, 576,
    ],
    [
        0, 6, 12, 18, 24, 30, 36, 44, 54, 66, 80, 96, 116, 140, 168, 200, 238, 284, 336, 396, 464,
        522, 576,
    ],
    [
        0, 6, 12, 18, 24, 30, 36, 44, 54, 66, 80, 96, 114, 136, 162, 194, 232, 278, 332, 394, 464,
        540, 576,
    ],
    [
        0, 6, 12, 18, 24, 30, 36, 44, 54, 66, 80, 96, 116, 140, 168, 200, 238, 284, 336, 396, 464,
        522, 576,
    ],
    [
        0, 6, 12, 18, 24, 30, 36, 44, 54, 66, 80, 96, 116, 140, 168, 200, 238, 284, 336, 396, 464,
        522, 576,
    ],
    [
        0, 6, 12, 18, 24, 30, 36, 44, 54, 66, 80, 96, 116, 140, 168, 200, 238, 284, 336, 396, 464,
        522, 576,
    ],
    [
        0, 12, 24, 36, 48, 60, 72, 88, 108, 132, 160, 192, 232, 280, 336, 400, 476, 566, 568, 570,
        572, 574, 576,
    ],
];

static SHORT: [[u16; 14]; 9] = [
    [0, 4, 8, 12, 16, 22, 30, 40, 52, 66, 84, 106, 136, 192],
    [0, 4, 8, 12, 16, 22, 28, 38, 50, 64, 80, 100, 126, 192],
    [0, 4, 8, 12, 16, 22, 30, 42, 58, 78, 104, 138, 180, 192],
    [0, 4, 8, 12, 18, 24, 32, 42, 56, 74, 100, 132, 174, 192],
    [0, 4, 8, 12, 18, 26, 36, 48, 62, 80, 104, 136, 180, 192],
    [0, 4, 8, 12, 18, 26, 36, 48, 62, 80, 104, 134, 174, 192],
    [0, 4, 8, 12, 18, 26, 36, 48, 62, 80, 104, 134, 174, 192],
    [0, 4, 8, 12, 18, 26, 36, 48, 62, 80, 104, 134, 174, 192],
    [0, 8, 16, 24, 36, 52, 72, 96, 124, 160, 162, 164, 166, 192],
];

// A number, since it is a row's; `standard`, which declares the rates, has no code for it.
fn row_of(rate: SampleRate) -> usize
    ensures { result ≡ row_of rate }
{
    match rate {
        SampleRate::Hz44100 => 0,
        SampleRate::Hz48000 => 1,
        SampleRate::Hz32000 => 2,
        SampleRate::Hz22050 => 3,
        SampleRate::Hz24000 => 4,
        SampleRate::Hz16000 => 5,
        SampleRate::Hz11025 => 6,
        SampleRate::Hz12000 => 7,
        SampleRate::Hz8000 => 8,
    }
}

// The start of the i-th band of long blocks; past the last band, where it ends.
#[tactic(auto, using(standard::specs::BandsLaws::row_lt), unfolding(standard::specs::Bands::long_start, standard::specs::Bands::long_rows))]
pub fn long_start(rate: SampleRate, i: usize) -> u16
    ensures { result ≡ long_start rate i }
{
    LONG[row_of(rate)].get(i).copied().unwrap_or(576)
}

// The start of the i-th band of one window of short blocks; past the last band, where it ends.
#[tactic(auto, using(standard::specs::BandsLaws::row_lt), unfolding(standard::specs::Bands::short_start, standard::specs::Bands::short_rows))]
pub fn short_start(rate: SampleRate, i: usize) -> u16
    ensures { result ≡ short_start rate i }
{
    SHORT[row_of(rate)].get(i).copied().unwrap_or(192)
}
