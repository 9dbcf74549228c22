//! The layers of a picture, in place.
ghost use Rattle.std.specs.Prelude.{◌≡◌, ◌<◌, [], ◌∷◌, ◌++◌, List, length};

use crate::pictures::Layer;
use std::marker::Model;

/// The layers of a picture from the lowest to the highest, at most 16, in place. Contracts see the list of
/// layers.
#[derive(Clone, Copy, PartialEq, Eq)]
pub struct Layers {
    items: [Layer; 16],
    count: usize,
}

impl Model for Layers {
    ghost use Rattle.std.specs.Prelude.{List, take};
    ghost use Rattle.kms_model.specs.declared.pictures.Layer.{Layer};

    ghost Value = { List Layer };

    ghost use Rattle.kms_model.specs.Frames.LayersInPlace.{IsInPlace, in_place, count_again, items_again};
    ghost use Rattle.std.specs.Prelude.{length};
    ghost use Rattle.std.proofs.Common.{refl};

    ghost view = { λ s. take s.count s.items };

    ghost invariant = { λ s. IsInPlace s.items s.count };

    ghost inverse = { λ ls. record { items = in_place ls; count = length ls } };

    ghost inverse_ok = { λ s h.
        Prim.rw (count_again s.items s.count h, items_again s.items s.count h) refl };
}

impl Layers {
    /// No layer.
    pub fn new() -> Layers
        ensures { result ≡ [] }
    {
        Layers {
            items: [Layer::BLANK; 16],
            count: 0,
        }
    }

    /// How many layers there are.
    pub fn len(&self) -> usize
        ensures { result ≡ length self.now }
    {
        self.count
    }

    /// Puts a layer above the others.
    pub fn push(&mut self, layer: Layer)
        requires { length self.old < 16 }
        ensures { self.new ≡ self.old ++ layer ∷ [] }
    {
        self.items[self.count] = layer;
        self.count += 1;
    }

    /// All layers, from the lowest to the highest.
    pub fn as_slice(&self) -> &[Layer]
        ensures { result.now ≡ self.now }
    {
        &self.items[..self.count]
    }
}
