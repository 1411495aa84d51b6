// How a frame's side information is laid out, by its version and channels.
ghost use Rattle.record_check.specs.Layouts.{LaidOut};

#[derive(Clone, Copy)]
pub struct Layout {
    pub main_data_begin: usize, // bits of main_data_begin
    pub prefix: usize, // bits before the sharing bits
    pub shares: usize, // sharing bits
    pub slots: usize, // slots
    pub size: usize, // bytes in all; kept, since the public promise `LaidOut` states it
}

// How side information is laid out, by version and channels.
pub fn layout_of(mpeg1: bool, two: bool) -> Layout
    ensures { LaidOut mpeg1 two result }
{
    match (mpeg1, two) {
        (true, true) => Layout {
            main_data_begin: 9,
            prefix: 12,
            shares: 8,
            slots: 4,
            size: 32,
        },
        (true, false) => Layout {
            main_data_begin: 9,
            prefix: 14,
            shares: 4,
            slots: 2,
            size: 17,
        },
        (false, true) => Layout {
            main_data_begin: 8,
            prefix: 10,
            shares: 0,
            slots: 2,
            size: 17,
        },
        (false, false) => Layout {
            main_data_begin: 8,
            prefix: 9,
            shares: 0,
            slots: 1,
            size: 9,
        },
    }
}
