//! Laws of cuts, structure and bodies (Apple TrueType Reference Manual, "Managing the flow of
//! control", "Defining and using functions and instructions"). The functions here do nothing: their
//! contracts are the laws.

ghost use Rattle.std.specs.Prelude.{◌≡◌, ◌↔◌, ℕ, ◌+◌, List, Some, length};
ghost use Rattle.std.specs.List.{AllByRecursion};
ghost use Rattle.tt_code.specs.Cut.{CannotBeCut, Instruction, IsCut, IsInstruction, instruction_at};
ghost use Rattle.tt_code.specs.Grammar.{Ends, FindsEachTarget, FindsTargets, GoesTo, IsBodyAt, IsFault, IsStartOrEnd, IsStructured, IsInstructionAt};
ghost use Rattle.tt_code.specs.Structure.{after_else, after_fdef, after_if, body_at, leads, keyword};
ghost use Rattle.tt_code.specs.declared.machine.Body.{Body};
ghost use Rattle.tt_code.specs.declared.block_keyword.BlockKeyword.{BlockKeyword};

/// States that a program has at most one cut.
pub fn one_cut()
    ensures { (bytes : List ℕ) (is js : List Instruction) →
        IsCut bytes is → IsCut bytes js → is ≡ js }
{}

/// States that a program that cannot be cut has one offset at which its cut fails.
pub fn one_end_of_cut()
    ensures { (bytes : List ℕ) (k m : ℕ) → CannotBeCut bytes k → CannotBeCut bytes m → k ≡ m }
{}

/// States that a program that can be cut has at most one fault of its structure.
pub fn one_fault()
    ensures { (bytes : List ℕ) (is : List Instruction) (k m : ℕ) →
        IsCut bytes is → IsFault is k → IsFault is m → k ≡ m }
{}

/// States that a structured program has no fault of its structure.
pub fn structured_without_fault()
    ensures { (bytes : List ℕ) (is : List Instruction) (k : ℕ) →
        IsCut bytes is → IsStructured is → IsFault is k → ⊥ }
{}

/// States that an instruction that opens something leads to at most one offset.
pub fn one_target()
    ensures { (bytes : List ℕ) (is : List Instruction) (opener other : BlockKeyword) →
        (offset s t : ℕ) → IsCut bytes is →
        GoesTo opener is offset s → GoesTo other is offset t → s ≡ t }
{}

/// States that each instruction of a structured program that opens something leads somewhere, by
/// the grammar.
pub fn each_target()
    ensures { (bytes : List ℕ) (is : List Instruction) (offset : ℕ) (i : Instruction) →
        (e : BlockKeyword) → IsCut bytes is → IsStructured is → IsInstructionAt is offset i →
        Ends (keyword i) e → (to : ℕ) × GoesTo (keyword i) is offset to }
{}

/// States that at most one instruction starts at an offset.
pub fn one_instruction()
    ensures { (bytes : List ℕ) (is : List Instruction) (offset : ℕ) (i j : Instruction) →
        IsCut bytes is → IsInstructionAt is offset i → IsInstructionAt is offset j → i ≡ j }
{}

/// States that an instruction of a structured program has at most one body.
pub fn one_body()
    ensures { (bytes : List ℕ) (is : List Instruction) (offset : ℕ) (i : Instruction) →
        (b c : Body) → IsCut bytes is → IsStructured is → IsInstructionAt is offset i →
        IsBodyAt is offset b → IsBodyAt is offset c → b ≡ c }
{}

/// States that each instruction of a structured program has a body, by the grammar.
pub fn each_body()
    ensures { (bytes : List ℕ) (is : List Instruction) (offset : ℕ) (i : Instruction) →
        IsCut bytes is → IsStructured is → IsInstructionAt is offset i →
        (b : Body) × IsBodyAt is offset b }
{}

/// States that after an instruction there is another one, or the program ends.
pub fn next_is_there()
    ensures { (is : List Instruction) (offset : ℕ) (i : Instruction) →
        IsInstructionAt is offset i → IsStartOrEnd is (offset + length i) }
{}

/// States that where an opening instruction leads there is an instruction, or the program ends.
pub fn target_is_there()
    ensures { (is : List Instruction) (opener : BlockKeyword) (offset to : ℕ) →
        GoesTo opener is offset to → IsStartOrEnd is to }
{}

/// States that at each offset the instruction that starts there is found, and no other.
pub fn instructions_are_found()
    ensures { (is : List Instruction) (at : ℕ) (i : Instruction) →
        AllByRecursion IsInstruction is
        → ((instruction_at is at ≡ Some i) ↔ IsInstructionAt is at i) }
{}

/// States that in a structured program `after_if`, `after_else`, `after_fdef` and, for IDEF,
/// `leads` find where an instruction leads by the grammar, and nothing else.
pub fn partners_are_found()
    ensures of_if { FindsTargets BlockKeyword.If after_if }
    ensures of_else { FindsTargets BlockKeyword.Else after_else }
    ensures of_fdef { FindsTargets BlockKeyword.Fdef after_fdef }
    ensures of_idef { FindsTargets BlockKeyword.Idef (leads BlockKeyword.Idef) }
{}

/// States that in a structured program a target is found for each IF, ELSE, FDEF and IDEF.
pub fn partners_are_there()
    ensures of_if { FindsEachTarget BlockKeyword.If after_if }
    ensures of_else { FindsEachTarget BlockKeyword.Else after_else }
    ensures of_fdef { FindsEachTarget BlockKeyword.Fdef after_fdef }
    ensures of_idef { FindsEachTarget BlockKeyword.Idef (leads BlockKeyword.Idef) }
{}

/// States that a body is found for each instruction and nowhere else, and that in a structured
/// program it is the one to which the instruction belongs.
pub fn bodies_are_found()
    ensures found { (is : List Instruction) (at : ℕ) (i : Instruction) (b : Body) →
        IsStructured is → AllByRecursion IsInstruction is → IsInstructionAt is at i →
        ((body_at is at ≡ Some b) ↔ IsBodyAt is at b) }
    ensures there { (is : List Instruction) (at : ℕ) (i : Instruction) →
        AllByRecursion IsInstruction is → IsInstructionAt is at i →
        (b : Body) × (body_at is at ≡ Some b) }
    ensures only { (is : List Instruction) (at : ℕ) (b : Body) → body_at is at ≡ Some b →
        (i : Instruction) × IsInstructionAt is at i }
{}

/// States that in a structured program each FDEF is in the main program.
pub fn definitions_are_in_main()
    ensures { (is : List Instruction) (at : ℕ) (i : Instruction) →
        IsStructured is → AllByRecursion IsInstruction is → IsInstructionAt is at i →
        keyword i ≡ BlockKeyword.Fdef → body_at is at ≡ Some Body.Main }
{}
