// Executes the boundary cases of cells, their splits, exact addresses, searches and xmms. A line that does not say "N of N" is an error.
#![tactic(auto)]

mod addresses;
mod cells;
mod searches;
mod splits;
mod xmms;

use std::io;
use stored::Tally;

// The last address, and the largest word.
const TOP: u64 = u64::MAX;

fn tell(rt: &impl Print, name: &str, tally: Tally) -> io::Result<()> {
    println!(rt; "{name}: {tally}")
}

fn tell_cells(rt: &impl Print) -> io::Result<()> {
    tell(rt, "cells, examples", cells::examples())?;
    tell(rt, "cells, 11", cells::lengths())?;
    tell(rt, "cells, 12", cells::counts())?;
    tell(rt, "cells, 13", cells::tags())?;
    tell(rt, "cells, 14", cells::values())?;
    tell(rt, "cells, 15 by the cell before", cells::follows())?;
    tell(rt, "cells, 15 by the end", cells::ends())?;
    tell(rt, "cells, order", cells::orders())
}

fn tell_splits(rt: &impl Print) -> io::Result<()> {
    tell(rt, "splits, accepted", splits::accepted())?;
    tell(rt, "splits, 13", splits::tags())?;
    tell(rt, "splits, 14", splits::values())?;
    tell(rt, "splits, 15 by the cell before", splits::follows())?;
    tell(rt, "splits, 15 by the end", splits::ends())?;
    tell(rt, "splits, behind 2^64", splits::tops())?;
    tell(rt, "splits, order", splits::orders())
}

fn tell_addresses(rt: &impl Print) -> io::Result<()> {
    tell(rt, "MReg", addresses::bases())?;
    tell(rt, "MIndex, extremes", addresses::extremes())?;
    tell(rt, "MIndex, edges", addresses::edges())?;
    tell(rt, "MIndex, products", addresses::products())?;
    tell(rt, "operands", addresses::operands())
}

fn tell_searches(rt: &impl Print) -> io::Result<()> {
    tell(rt, "searches", searches::searches())?;
    tell(rt, "searches, in a row", searches::rows())?;
    tell(rt, "searches, gaps", searches::gaps())?;
    tell(rt, "searches, the end", searches::tops())?;
    tell(rt, "searches, no cells", searches::empties())?;
    tell(rt, "cells of operands", searches::operands())?;
    tell(
        rt,
        "cells of indexed operands",
        searches::indexed_operands(),
    )
}

fn main(rt: HostRuntime) -> io::Result<()> {
    tell_cells(&rt)?;
    tell_splits(&rt)?;
    tell_addresses(&rt)?;
    tell_searches(&rt)?;
    tell(&rt, "xmms", xmms::xmms())
}
