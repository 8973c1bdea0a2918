// Everything that is played over one field.
use comparison::{compare_arithmetic, fill_weight, open_grid, play, play_edges, play_worked};
use field::Field;
use generated::Plan;
use reference::{Element, Stop};
use report::Table;

// The points of the worked board: at rows, near them and far from them.
const POINTS: [u64; 6] = [0, 1, 2, 3, 5, 300];

// Grids that are just allowed, by their rows and columns.
const ALLOWED: [(u64, u64); 3] = [(64, 8), (1, 8), (1, 16)];

// Grids that are not.
const NOT_ALLOWED: [(u64, u64); 7] = [
    (0, 8),
    (65, 8),
    (2, 0),
    (2, 12),
    (2, 7),
    (2, 1032),
    (u64::MAX, u64::MAX),
];

// Boards of many shapes, by their rows and columns.
const SHAPES: [(u64, u64); 9] = [
    (1, 1024),
    (2, 512),
    (7, 64),
    (16, 24),
    (33, 8),
    (40, 40),
    (64, 8),
    (64, 16),
    (11, 200),
];

// The worked board at several points; in an extension at t too.
fn play_worked_points<F: Field>(table: &mut Table) -> Result<(), Stop> {
    for low in POINTS {
        play_worked::<F>(table, Element::whole(low))?;
    }
    if table.source.field.e == 2 {
        play_worked::<F>(table, Element { low: 0, high: 1 })?;
    }
    Ok(())
}

// Grids at their limits.
fn open_grids<F: Field>(table: &mut Table) -> Result<(), Stop> {
    for (rows, columns) in ALLOWED {
        open_grid::<F>(table, rows, columns, true)?;
    }
    for (rows, columns) in NOT_ALLOWED {
        open_grid::<F>(table, rows, columns, false)?;
    }
    Ok(())
}

// Generated games: so many on small boards, some on boards of many shapes, one on the largest.
fn play_games<F: Field>(table: &mut Table, small: u64) -> Result<(), Stop> {
    for _ in 0..small {
        let plan = table.source.any_plan();
        play::<F>(table, plan)?;
    }
    for (rows, columns) in SHAPES {
        play::<F>(table, Plan::shaped(rows, columns))?;
    }
    play::<F>(table, Plan::LARGEST)
}

/// Everything, over one field.
pub fn play_field<F: Field>(table: &mut Table) -> Result<(), Stop> {
    compare_arithmetic::<F>(table, 500);
    play_worked_points::<F>(table)?;
    play_edges::<F>(table)?;
    open_grids::<F>(table)?;
    fill_weight::<F>(table)?;
    play_games::<F>(table, 250)
}
