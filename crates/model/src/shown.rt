// How a cell, an event, a race and a layer are shown.
ghost use Rattle.std.specs.Prelude.{Some};
ghost use Rattle.model.specs.Shown.{cell_text, event_shown, kind_text, race_shown, layer_text};

use crate::{Cell, Event, Layer, Race, RaceKind};
use std::fmt;

impl fmt::Display for Cell {
    ghost output = { λ c. Some (cell_text c) };

    fn fmt<W: fmt::Write>(&self, f: &mut fmt::Formatter<W>) -> fmt::Result {
        write!(f, "{}/{}", self.mailbox, self.block)
    }
}

impl<C: fmt::Display> fmt::Display for Event<C> {
    ghost output = { λ e. event_shown C.Display.output e };

    fn fmt<W: fmt::Write>(&self, f: &mut fmt::Formatter<W>) -> fmt::Result {
        match self {
            Event::Spawn { task, child } => write!(f, "spawn {task} {child}"),
            Event::End { task } => write!(f, "end {task}"),
            Event::Open { task } => write!(f, "open {task}"),
            Event::Close { task } => write!(f, "close {task}"),
            Event::Read { task, cell } => write!(f, "read {task} {cell}"),
            Event::Write { task, cell } => write!(f, "write {task} {cell}"),
        }
    }
}

impl fmt::Display for RaceKind {
    ghost output = { λ k. Some (kind_text k) };

    fn fmt<W: fmt::Write>(&self, f: &mut fmt::Formatter<W>) -> fmt::Result {
        f.write_str(match self {
            RaceKind::WriteRead => "wr",
            RaceKind::WriteWrite => "ww",
            RaceKind::ReadWrite => "rw",
        })
    }
}

impl<C: fmt::Display> fmt::Display for Race<C> {
    ghost output = { λ r. race_shown C.Display.output r };

    fn fmt<W: fmt::Write>(&self, f: &mut fmt::Formatter<W>) -> fmt::Result {
        write!(
            f,
            "{} cell {} first {} second {}",
            self.kind, self.cell, self.first, self.second
        )
    }
}

impl fmt::Display for Layer {
    ghost output = { λ l. Some (layer_text l) };

    fn fmt<W: fmt::Write>(&self, f: &mut fmt::Formatter<W>) -> fmt::Result {
        f.write_str(match self {
            Layer::Bytes => "bytes",
            Layer::Run => "run",
            Layer::Order => "order",
            Layer::Cells => "cells",
        })
    }
}
