ghost use Rattle.std.specs.Prelude.{◌≡◌, ℕ, true, false, List, [], ◌∷◌, ◌++◌, ◌<◌, ◌≤◌, length, Ok};
ghost use Rattle.tab_spec.specs.declared.TheConstants.{MOST_BYTES};
ghost use Rattle.tab_spec.specs.Frame.{StreamItem, frames, is_frame, item_of, with_item, left_of};
ghost use Rattle.tab_spec.specs.Frame.{meets_bad_size, whole};
ghost use Rattle.tab_spec.specs.Object.{object_of, object_bytes, IsObject, Object};
ghost use Rattle.tab_spec.specs.Session.{Session, session_of, session_bytes, IsSession};
ghost use Rattle.tab_spec.specs.Values.{AreBytes, Public, public_of, public_bytes, IsPublic};
ghost use Rattle.tab_spec.specs.Values.{NvPublic, nv_public_of, nv_public_bytes, IsNvPublic};
ghost use Rattle.tab_spec.specs.Values.{PcrSelection, selection_of, selection_bytes};
ghost use Rattle.tab_spec.specs.Values.{IsPcrSelection};

/// A stream goes on behind its whole frames as if what is left there began it. Behind a size that
/// no frame has nothing more comes.
pub fn streams_go_on()
    ensures items { (a b : List ℕ)
        → (frames (a ++ b)).items ≡ (frames a).items ++ (frames (left_of a ++ b)).items }
    ensures ending { (a b : List ℕ) → (frames (a ++ b)).ending ≡ (frames (left_of a ++ b)).ending }
    ensures left { (a b : List ℕ) → left_of (a ++ b) ≡ left_of (left_of a ++ b) }
    ensures bad { (a b : List ℕ) → meets_bad_size a ≡ true → frames (a ++ b) ≡ frames a }
{}

/// What is left of a stream is itself where no frame comes first, and has fewer bytes than a frame
/// may have, unless it meets a bad size.
pub fn a_rest_has_no_frame()
    ensures same { (a : List ℕ) → (frames a).items ≡ [] → left_of a ≡ a }
    ensures none { (a : List ℕ)
        → frames (left_of a) ≡ record { items = []; ending = (frames a).ending } }
    ensures few { (a : List ℕ) → meets_bad_size a ≡ false → length (left_of a) < MOST_BYTES }
{}

/// The items of a stream are the first of those of the stream when it goes on, whatever comes.
pub fn items_are_a_front()
    ensures { (a b : List ℕ)
        → (more : List StreamItem) × ((frames (a ++ b)).items ≡ (frames a).items ++ more) }
{}

/// A frame is the first item of the stream that it begins.
pub fn a_frame_comes_first()
    ensures items { (f b : List ℕ) → is_frame f ≡ true
        → frames (f ++ b) ≡ with_item (item_of f) (frames b) }
    ensures left { (f b : List ℕ) → is_frame f ≡ true → left_of (f ++ b) ≡ left_of b }
{}

/// A stream of exactly one frame is cut into that frame's item alone, with nothing left over.
pub fn one_frame_is_cut_whole()
    ensures { (f : List ℕ) → is_frame f ≡ true
        → frames f ≡ record { items = item_of f ∷ []; ending = whole } }
{}

/// What is written of a public area is read again, whatever follows, and what is read is one. No
/// other bytes are read as it.
pub fn public_areas_are_read_back()
    ensures written { (p : Public) (more : List ℕ) → IsPublic p
        → public_of (public_bytes p ++ more) ≡ Ok (p, more) }
    ensures read { (bytes : List ℕ) (p : Public) (rest : List ℕ) → public_of bytes ≡ Ok (p, rest)
        → IsPublic p }
    ensures one_spelling { (bytes : List ℕ) (p : Public) (rest : List ℕ) → AreBytes bytes
        → public_of bytes ≡ Ok (p, rest) → bytes ≡ public_bytes p ++ rest }
{}

/// What is written of the public area of an NV index is read again, whatever follows, and what is
/// read is one. No other bytes are read as it.
pub fn nv_public_areas_are_read_back()
    ensures written { (p : NvPublic) (more : List ℕ) → IsNvPublic p
        → nv_public_of (nv_public_bytes p ++ more) ≡ Ok (p, more) }
    ensures read { (bytes : List ℕ) (p : NvPublic) (rest : List ℕ)
        → nv_public_of bytes ≡ Ok (p, rest) → IsNvPublic p }
    ensures one_spelling { (bytes : List ℕ) (p : NvPublic) (rest : List ℕ) → AreBytes bytes
        → nv_public_of bytes ≡ Ok (p, rest) → bytes ≡ nv_public_bytes p ++ rest }
{}

/// What is written of a selection of PCRs is read again, whatever follows, and what is read is one.
/// No other bytes are read as it.
pub fn selections_are_read_back()
    ensures written { (s : PcrSelection) (more : List ℕ) → IsPcrSelection s
        → selection_of (selection_bytes s ++ more) ≡ Ok (s, more) }
    ensures read { (bytes : List ℕ) (s : PcrSelection) (rest : List ℕ)
        → selection_of bytes ≡ Ok (s, rest) → IsPcrSelection s }
    ensures one_spelling { (bytes : List ℕ) (s : PcrSelection) (rest : List ℕ) → AreBytes bytes
        → selection_of bytes ≡ Ok (s, rest) → bytes ≡ selection_bytes s ++ rest }
{}

/// What is written of an object is read again, whatever follows, and what is read is one. No other
/// bytes are read as it. It takes at most 318 bytes.
pub fn objects_are_read_back()
    ensures written { (o : Object) (more : List ℕ) → IsObject o
        → object_of (object_bytes o ++ more) ≡ Ok (o, more) }
    ensures read { (bytes : List ℕ) (o : Object) (rest : List ℕ) → object_of bytes ≡ Ok (o, rest)
        → IsObject o }
    ensures one_spelling { (bytes : List ℕ) (o : Object) (rest : List ℕ) → AreBytes bytes
        → object_of bytes ≡ Ok (o, rest) → bytes ≡ object_bytes o ++ rest }
    ensures most { (o : Object) → IsObject o → length (object_bytes o) ≤ 318 }
    ensures short { (bytes : List ℕ) (o : Object) → object_of bytes ≡ Ok (o, [])
        → length bytes ≤ 318 }
{}

/// What is written of a session is read again, whatever follows, and what is read is one. No other
/// bytes are read as it. It takes at most 76 bytes.
pub fn sessions_are_read_back()
    ensures written { (s : Session) (more : List ℕ) → IsSession s
        → session_of (session_bytes s ++ more) ≡ Ok (s, more) }
    ensures read { (bytes : List ℕ) (s : Session) (rest : List ℕ) → AreBytes bytes
        → session_of bytes ≡ Ok (s, rest) → IsSession s }
    ensures one_spelling { (bytes : List ℕ) (s : Session) (rest : List ℕ) → AreBytes bytes
        → session_of bytes ≡ Ok (s, rest) → bytes ≡ session_bytes s ++ rest }
    ensures most { (s : Session) → IsSession s → length (session_bytes s) ≤ 76 }
    ensures short { (bytes : List ℕ) (s : Session) → session_of bytes ≡ Ok (s, [])
        → length bytes ≤ 76 }
{}
