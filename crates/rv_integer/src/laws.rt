//! What holds of the operations on 32 bits as a whole.

ghost use Rattle.rv_integer.specs.WordForms.{RegisterWordsAreWords, ImmediateWordsAreWords, RegisterWordsIgnoreUpperBits, ImmediateWordsIgnoreUpperBits};

/// Every result is a sign-extended word.
pub fn results_are_words()
    ensures registers { RegisterWordsAreWords }
    ensures immediates { ImmediateWordsAreWords }
{}

/// The upper 32 bits of the sources change nothing.
pub fn upper_bits_are_ignored()
    ensures registers { RegisterWordsIgnoreUpperBits }
    ensures immediates { ImmediateWordsIgnoreUpperBits }
{}
