//! Nodes, and the rows of groups, paths, images, gradients and stops.

use crate::entries::Entry;
use crate::keywords::take_case;
use crate::places::{take_place, take_text};
use crate::rows::Row;
use drawing::rows::{BaseGradient, Color, Fill, Group, Image, Path, Stop, Stroke, Transform};
use drawing::tables::Node;
use scripts::cursors::{Words, take_flag, take_float};
use scripts::failures::{Failure, Fields};

/// Six numbers, in the order of a matrix.
impl Entry for Transform {
    fn take(words: &mut Words, _pool: &mut Vec<u8>) -> Result<Transform, Failure> {
        Ok(Transform {
            sx: take_float(words)?,
            ky: take_float(words)?,
            kx: take_float(words)?,
            sy: take_float(words)?,
            tx: take_float(words)?,
            ty: take_float(words)?,
        })
    }
}

impl Row for Node {
    const WANTED: Fields = Fields::Node;

    fn set(&mut self, name: &[u8], words: &mut Words, pool: &mut Vec<u8>) -> Result<(), Failure> {
        match name {
            b"kind" => self.kind = take_case(words)?,
            b"row" => self.row = usize::take(words, pool)?,
            b"end" => self.end = usize::take(words, pool)?,
            _ => return Err(Self::no_field(words, name)),
        }
        Ok(())
    }
}

impl Row for Group {
    const WANTED: Fields = Fields::Group;

    fn set(&mut self, name: &[u8], words: &mut Words, pool: &mut Vec<u8>) -> Result<(), Failure> {
        match name {
            b"id" => self.id = take_text(words, pool)?,
            b"transform" => self.transform = Transform::take(words, pool)?,
            b"opacity" => self.opacity = take_float(words)?,
            b"blend_mode" => self.blend_mode = take_case(words)?,
            b"isolate" => self.isolate = take_flag(words)?,
            b"clip_path" => self.clip_path = Some(take_text(words, pool)?),
            b"mask" => self.mask = Some(take_text(words, pool)?),
            b"filters" => self.filters = take_place(words)?,
            _ => return Err(Self::no_field(words, name)),
        }
        Ok(())
    }
}

impl Row for Path {
    const WANTED: Fields = Fields::Path;

    fn set(&mut self, name: &[u8], words: &mut Words, pool: &mut Vec<u8>) -> Result<(), Failure> {
        match name {
            b"id" => self.id = take_text(words, pool)?,
            b"visible" => self.visible = take_flag(words)?,
            b"fill" => self.fill = Some(Fill::take(words, pool)?),
            b"stroke" => self.stroke = Some(Stroke::take(words, pool)?),
            b"paint_order" => self.paint_order = take_case(words)?,
            b"rendering_mode" => self.rendering_mode = take_case(words)?,
            b"data" => self.data = take_place(words)?,
            _ => return Err(Self::no_field(words, name)),
        }
        Ok(())
    }
}

impl Row for Image {
    const WANTED: Fields = Fields::Image;

    fn set(&mut self, name: &[u8], words: &mut Words, pool: &mut Vec<u8>) -> Result<(), Failure> {
        match name {
            b"id" => self.id = take_text(words, pool)?,
            b"visible" => self.visible = take_flag(words)?,
            b"width" => self.width = take_float(words)?,
            b"height" => self.height = take_float(words)?,
            b"rendering_mode" => self.rendering_mode = take_case(words)?,
            b"payload" => self.payload = take_text(words, pool)?,
            _ => return Err(Self::no_field(words, name)),
        }
        Ok(())
    }
}

impl Row for BaseGradient {
    const WANTED: Fields = Fields::Gradient;

    fn set(&mut self, name: &[u8], words: &mut Words, pool: &mut Vec<u8>) -> Result<(), Failure> {
        match name {
            b"units" => self.units = take_case(words)?,
            b"transform" => self.transform = Transform::take(words, pool)?,
            b"spread_method" => self.spread_method = take_case(words)?,
            b"stops" => self.stops = take_place(words)?,
            _ => return Err(Self::no_field(words, name)),
        }
        Ok(())
    }
}

impl Row for Stop {
    const WANTED: Fields = Fields::Stop;

    fn set(&mut self, name: &[u8], words: &mut Words, pool: &mut Vec<u8>) -> Result<(), Failure> {
        match name {
            b"offset" => self.offset = take_float(words)?,
            b"color" => self.color = Color::take(words, pool)?,
            b"opacity" => self.opacity = take_float(words)?,
            _ => return Err(Self::no_field(words, name)),
        }
        Ok(())
    }
}
