//! Laws of table lines. Each function does nothing, and its `ensures` clause is the law.
ghost use Rattle.std.specs.Prelude.{◌≡◌, Ok, ℕ, List};
ghost use Rattle.refusals.specs.Words.{words_of};
ghost use Rattle.layer_table.specs.declared.layer_spec.LayerSpec.{LayerSpec};
ghost use Rattle.layer_table.specs.TableLines.{IsLayerSpec, line_answer, layer_text};

/// If words ask for a layer, the layer's values are in their ranges.
pub fn layers_asked_for_are_in_range()
    ensures { (words : List (List ℕ)) (spec : LayerSpec) → line_answer words ≡ Ok spec
        → IsLayerSpec spec }
{}

/// If a layer's values are in their ranges, the layer's canonical text asks for that layer.
pub fn printed_layers_are_asked_for()
    ensures { (spec : LayerSpec) → IsLayerSpec spec
        → line_answer (words_of (layer_text spec)) ≡ Ok spec }
{}
